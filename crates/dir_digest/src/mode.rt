/// How a run changes labels, as restorecon(8) tells it of its option `-F`.
#[derive(Clone, Copy, Debug, PartialEq, Eq)]
pub enum Mode {
    /// A label is given whole, and customizable types count for nothing.
    Whole,
    /// A label's type alone changes, unless it is a customizable one.
    KindOnly,
}
