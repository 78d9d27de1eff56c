// Reading sheets: opening them, the next strip, and returning the token.
ghost use Rattle.std.specs.Prelude.{◌≡◌, ◌+◌, ◌-◌, length};
ghost use Rattle.trees.specs.Holding.{standing};
ghost use Rattle.trees.specs.Trees.{payload_of};
ghost use Rattle.store.specs.Model.{model};
ghost use Rattle.store.specs.States.{keeping};
ghost use Rattle.store.specs.Readings.{recounted, open_entry, open_answer, after_open, lead_at, place_answer, moved_on, give_answer, give_buffer, next_answer, next_buffer, DueInText, Stands, return_answer, after_return};

use crate::state::Store;
use crate::tokens::ReadToken;
use catalogue::Sheet;
use devices::Device;
use records::{Cause, Place, Refusal};
use walks::{Astray, leads_to, position_after};

impl<D: Device> Store<D> {
    // Counts the readings of the sheet at an entry anew.
    fn recount(&mut self, entry: usize, readings: u8)
        ensures { model D.Device D.Kind.Key.bytes self.new ≡ keeping (model D.Device D.Kind.Key.bytes self.old) (recounted readings (model D.Device D.Kind.Key.bytes self.old).sheets entry) }
    {
        if let Some(sheet) = self.catalogue.sheet(entry) {
            let counted = Sheet {
                readings: usize::from(readings),
                ..sheet
            };
            self.catalogue.put(entry, Some(counted));
        }
    }

    // The entry of a sheet that may be opened.
    fn entry_to_open(&self, name: &[u8]) -> Result<usize, Refusal>
        ensures { result ≡ open_entry (model D.Device D.Kind.Key.bytes self.now) name.now }
    {
        self.check_admitted()?;
        let entry = self.entry_of(name)?;
        if self.catalogue.readings_out() >= 16 {
            return Err(Refusal::from(Cause::TooManyTokens));
        }
        Ok(entry)
    }

    // A token at the start of the sheet at an entry.
    fn token_at_start(&self, entry: usize) -> ReadToken
        ensures { result ≡ record { number = self.now.number; sheet = entry; position = 0 } }
    {
        ReadToken {
            number: self.number,
            sheet: entry,
            position: 0,
        }
    }

    // Opens the sheet of a name: a token at its start.
    pub fn open(&mut self, name: &[u8]) -> Result<ReadToken, Refusal>
        ensures answer { result ≡ open_answer (model D.Device D.Kind.Key.bytes self.old) name.now }
        ensures after { model D.Device D.Kind.Key.bytes self.new ≡ after_open (model D.Device D.Kind.Key.bytes self.old) name.now }
    {
        let entry = self.entry_to_open(name)?;
        let readings = self.catalogue.readings(entry);
        self.recount(entry, readings + 1);
        Ok(self.token_at_start(entry))
    }

    // Where the reading of a token stands.
    fn lead(&self, token: &ReadToken) -> Result<Option<Place>, Astray>
        ensures { result ≡ lead_at D.Kind.Key.WIDE (model D.Device D.Kind.Key.bytes self.now) token.now }
    {
        let sheet = self
            .catalogue
            .sheet(token.sheet)
            .filter(|sheet| sheet.readings != 0)
            .ok_or(Astray)?;
        leads_to(&self.device, sheet.root, token.position)
    }

    // The place of the strip that a token's next reading gives, or none at the end, if the token is one of a reading that is out here.
    fn place_due(&self, token: &ReadToken) -> Result<Option<Place>, Refusal>
        ensures { result ≡ place_answer D.Kind.Key.WIDE (model D.Device D.Kind.Key.bytes self.now) token.now }
    {
        self.check_admitted()?;
        if token.number != self.number {
            return Err(Refusal::from(Cause::WrongToken));
        }
        self.lead(token)
            .map_err(|_| Refusal::from(Cause::WrongToken))
    }

    // The token behind the strip that it stands at.
    fn moved_on(&self, mut token: ReadToken) -> ReadToken
        ensures { result ≡ moved_on D.Kind.Key.WIDE (model D.Device D.Kind.Key.bytes self.now) token }
    {
        if let Some(kept) = self.catalogue.sheet(token.sheet) {
            token.position = position_after(&self.device, kept.root, token.position);
        }
        token
    }

    // Gives the strip at a place where a record stands.
    fn give(
        &self,
        token: ReadToken,
        place: Place,
        buffer: &mut [u8],
    ) -> Result<(ReadToken, Option<usize>), (Refusal, ReadToken)>
        requires { Stands (D.Device.contents self.now.device) place }
        ensures answer { result ≡ give_answer D.Kind.Key.WIDE (model D.Device D.Kind.Key.bytes self.now) token (length buffer.old) (payload_of (standing (D.Device.contents self.now.device) place)) }
        ensures buffer { buffer.new ≡ give_buffer buffer.old (payload_of (standing (D.Device.contents self.now.device) place)) }
    {
        // A match, since the closures of `map` and `map_err` would each take the token.
        match self.device.payload(place, buffer) {
            Ok(len) => Ok((self.moved_on(token), Some(len))),
            Err(refusal) => Err((refusal, token)),
        }
    }

    // Gives the next strip of a reading: the token moved on and the strip's length, or none at the end.
    pub fn next(
        &self,
        token: ReadToken,
        buffer: &mut [u8],
    ) -> Result<(ReadToken, Option<usize>), (Refusal, ReadToken)>
        ensures answer { result ≡ next_answer D.Kind.Key.WIDE (model D.Device D.Kind.Key.bytes self.now) token (length buffer.old) }
        ensures buffer { buffer.new ≡ next_buffer D.Kind.Key.WIDE (model D.Device D.Kind.Key.bytes self.now) token buffer.old }
        ensures text { DueInText D.Kind.Key.WIDE (model D.Device D.Kind.Key.bytes self.now) token }
    {
        // A match, since a closure that puts the token to a refusal for `?` would take it from what follows.
        match self.place_due(&token) {
            Ok(Some(place)) => self.give(token, place, buffer),
            Ok(None) => Ok((token, None)),
            Err(refusal) => Err((refusal, token)),
        }
    }

    // Takes a token for good: its reading is over.
    pub fn return_token(&mut self, token: ReadToken) -> Result<(), (Refusal, ReadToken)>
        ensures answer { result ≡ return_answer D.Kind.Key.WIDE (model D.Device D.Kind.Key.bytes self.old) token }
        ensures after { model D.Device D.Kind.Key.bytes self.new ≡ after_return D.Kind.Key.WIDE (model D.Device D.Kind.Key.bytes self.old) token }
    {
        // Not by `?`, as in `next`.
        if let Err(refusal) = self.place_due(&token) {
            return Err((refusal, token));
        }
        // Each field is named, since `..` doesn't take apart what can't be let go.
        let ReadToken {
            number: _,
            sheet,
            position: _,
        } = token;
        let readings = self.catalogue.readings(sheet);
        self.recount(sheet, readings.saturating_sub(1));
        Ok(())
    }
}
