use rp_base::Text;

/// An assignment in `[Partition]`, with the name of the drop-in that it stands in, empty in the main file.
#[derive(Debug, Drop)]
pub(crate) struct Setting {
    pub(crate) part: Text,
    pub(crate) value: Text,
    pub(crate) line: u32,
}
