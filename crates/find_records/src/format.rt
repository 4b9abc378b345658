/// Which fields a record has: the versions of records, by the format that find(1) writes them in.
#[derive(Clone, Copy, Debug, PartialEq, Eq)]
pub enum Format {
    /// Five fields, as by `find -printf '%y %D %i %Z %p\0'`: no link count.
    One,
    /// Six fields, as by `find -printf '%y %D %i %n %Z %p\0'`: each record has its link count.
    Two,
}
