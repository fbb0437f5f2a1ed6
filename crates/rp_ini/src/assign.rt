use rp_base::Text;

/// An assignment `key=value`, with the number of the logical line that it stands in.
#[derive(Debug, Drop)]
pub struct Assign {
    pub key: Text,
    pub value: Text,
    pub line: u32,
}
