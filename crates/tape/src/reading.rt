// Reading the entries of a log, first to last.
ghost use Rattle.std.specs.Iterator.{YieldsFirstBy, item_count};
ghost use Rattle.tape.specs.Log.{log_of};
ghost use Rattle.tape.specs.Reading.{entry_by};

use crate::entry::Entry;
use crate::log::Log;
use keys::Fingerprint;
use records::Record;

impl<'a, F: Fingerprint> Iterator for Log<'a, F> {
    type Item = Entry<'a, F>;

    ghost next_gives = { YieldsFirstBy (entry_by F.Key.bytes) (λ l. log_of F.Key.WIDE l.entries l.bytes.now) };

    ghost remaining = { item_count (λ l. log_of F.Key.WIDE l.entries l.bytes.now) };

    fn next(&mut self) -> Option<Entry<'a, F>> {
        let others = self.entries.checked_sub(1)?;
        // Cut first, since there is an entry: a test of the length at each one would cost a walk a third of its time.
        let (front, behind) = self.bytes.split_at(4);
        let head = front.first_chunk::<4>()?;
        let [container, level, low, high] = *head;
        let len = usize::from(u16::from_le_bytes([low, high]));
        let (name, behind) = behind.split_at(F::WIDE);
        let (payload, rest) = behind.split_at(len);
        let fingerprint = F::read(name)?;
        self.entries = others;
        self.bytes = rest;
        Some(Entry {
            container: usize::from(container),
            stored: Record {
                level,
                fingerprint,
                payload,
            },
        })
    }
}
