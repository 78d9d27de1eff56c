// Making a file, and finding a record in it.
ghost use Rattle.std.specs.Prelude.{◌≡◌, ◌<◌, ◌≤◌, [], length, None};
ghost use Rattle.std.specs.Result.{result_ok};
ghost use Rattle.records.specs.Limits.{Limits};
ghost use Rattle.records.specs.Records.{Contents, place_among, first_place};
ghost use Rattle.devices.specs.Questions.{of_record, records_of};
ghost use Rattle.container_format.specs.Checking.{NoFile, Intact};
ghost use Rattle.container_format.specs.Layout.{file};
ghost use Rattle.container_format.specs.Reading.{read_file};
ghost use Rattle.container_file.specs.Meaning.{contents_of, answered, Found, Entered, Spanned, LaidOut};

use crate::changes::zero;
use crate::file::ContainerFile;
use crate::header::Header;
use container_format::{
    HEADER, body_at, check, container_size, entry_size, has_length, u16_at, u32_at,
};
use keys::Fingerprint;
use records::{Cause, Place, Refusal};
use std::marker::PhantomData;
use std::ops::Range;

impl<F: Fingerprint> ContainerFile<F> {
    // The device over bytes that are so many containers.
    fn of(bytes: Vec<u8>, count: usize) -> Self
        requires { Intact F.Key.WIDE count bytes.items }
        ensures bytes { result.bytes ≡ bytes }
        ensures holds { contents_of F.Key.WIDE result ≡ read_file F.Key.WIDE count bytes.items }
    {
        ContainerFile {
            bytes,
            count,
            width: F::WIDE,
            kind: PhantomData,
        }
    }

    // Over some bytes: the containers of the file that they are, or no containers where they are none.
    pub fn over(bytes: Vec<u8>) -> Self
        ensures bytes { result.bytes ≡ bytes }
        ensures holds { (cs : Contents) → Limits F.Key.WIDE cs → bytes.items ≡ file F.Key.WIDE cs → contents_of F.Key.WIDE result ≡ cs }
        ensures refused { NoFile F.Key.WIDE bytes.items → contents_of F.Key.WIDE result ≡ [] }
    {
        let count = check::<F>(&bytes).unwrap_or(0);
        Self::of(bytes, count)
    }

    // Lays out `count` free containers over given bytes, which are zero then; else the bytes come back as they were.
    pub fn lay_out(mut bytes: Vec<u8>, count: usize) -> Result<Self, (Refusal, Vec<u8>)>
        ensures { LaidOut F.Key.WIDE count bytes result }
    {
        if !has_length::<F>(bytes.len(), count) {
            return Err((Refusal::from(Cause::Size), bytes));
        }
        let end = bytes.len();
        zero(&mut bytes, 0, end);
        Ok(Self::of(bytes, count))
    }

    // The bytes: the one file of what it holds, where it holds containers.
    pub fn bytes(&self) -> &[u8]
        ensures value { result.now ≡ self.now.bytes.items }
        ensures whole { 1 ≤ length (contents_of F.Key.WIDE self.now) → Limits F.Key.WIDE (contents_of F.Key.WIDE self.now) × (result.now ≡ file F.Key.WIDE (contents_of F.Key.WIDE self.now)) }
    {
        &self.bytes
    }

    // How many containers there are. (The tape has the same two lines over its own fields: an interface of their own would be no plainer.)
    pub(crate) fn containers(&self) -> usize
        ensures count { result ≡ length (contents_of F.Key.WIDE self.now) }
        ensures own { 0 < result → (self.now.width ≡ F.Key.WIDE) × (result ≡ self.now.count) }
    {
        if self.width == F::WIDE { self.count } else { 0 }
    }

    // The header of a container, if there is such a container.
    pub(crate) fn header(&self, container: usize) -> Option<Header>
        ensures { Found F.Key.WIDE self.now container result }
    {
        if container >= self.containers() {
            return None;
        }
        let base = container * container_size::<F>();
        Some(Header {
            container,
            base,
            records: u16_at(&self.bytes, base),
            used: u16_at(&self.bytes, base + 2),
        })
    }

    // Where the entry of a record begins, if there is such a record.
    pub(crate) fn entry(&self, place: Place) -> Option<usize>
        ensures { Entered F.Key.WIDE self.now place result }
    {
        let header = self.header(place.container)?;
        if place.index >= header.records {
            return None;
        }
        Some(header.base + (HEADER + place.index * entry_size::<F>()))
    }

    // Where a record's payload lies: it begins at the offset that its entry names.
    pub(crate) fn span(&self, place: Place) -> Option<Range<usize>>
        ensures { Spanned F.Key.WIDE self.now place result }
    {
        let header = self.header(place.container)?;
        let at = self.entry(place)?;
        let len = u16_at(&self.bytes, at + (F::WIDE + 2));
        let offset = u32_at(&self.bytes, at + (F::WIDE + 4));
        let from = header.base + body_at::<F>() + offset;
        Some(from..from + len)
    }

    // A record's payload: the part of the file that begins at the offset its entry names.
    pub fn part(&self, place: Place) -> Result<&[u8], Refusal>
        ensures { answered (λ x. x.now) result ≡ of_record (λ x. x.payload) (contents_of F.Key.WIDE self.now) place }
    {
        let span = self.span(place).ok_or(Cause::NoSuchPlace)?;
        Ok(&self.bytes[span])
    }

    // A record's fingerprint, if there is such a record.
    pub(crate) fn fingerprint_at(&self, place: Place) -> Option<F>
        ensures { result ≡ result_ok (of_record (λ x. F.Key.key x.fingerprint) (contents_of F.Key.WIDE self.now) place) }
    {
        let at = self.entry(place)?;
        F::read(&self.bytes[at..])
    }

    // The first place of a fingerprint in a container, if any.
    fn first_in(&self, container: usize, fingerprint: F) -> Option<Place>
        ensures { result ≡ place_among (F.Key.bytes fingerprint) container 0 (records_of (contents_of F.Key.WIDE self.now) container) None }
    {
        let header = self.header(container)?;
        (0..header.records)
            .find(|index| {
                let place = Place {
                    container,
                    index: *index,
                };
                self.fingerprint_at(place)
                    .is_some_and(|found| found == fingerprint)
            })
            .map(|index| Place { container, index })
    }

    // The first place of a fingerprint in the file, if any.
    pub(crate) fn first_of(&self, fingerprint: F) -> Option<Place>
        ensures { result ≡ first_place (contents_of F.Key.WIDE self.now) (F.Key.bytes fingerprint) }
    {
        (0..self.containers()).find_map(|container| self.first_in(container, fingerprint))
    }
}
