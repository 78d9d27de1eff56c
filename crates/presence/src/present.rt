// What a store holds of a record.

// A caller treats each of the three differently, so a Result or an Option of a bool would be no plainer.
#[derive(Clone, Copy, Debug, PartialEq, Eq)]
pub enum Presence {
    // Its fingerprint is not stored.
    Absent,
    // It is stored.
    Same,
    // Its fingerprint is stored with another level or other bytes.
    Other,
}
