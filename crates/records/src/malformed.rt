// Why 32 bytes are no record: a status above 2, a byte after the status that is not 0, or an empty
// record that is not all zero. The first that holds is told.
#[derive(Clone, Copy, PartialEq, Eq, Debug)]
pub enum Malformed {
    Status(u8),
    Padding,
    Residue,
}
