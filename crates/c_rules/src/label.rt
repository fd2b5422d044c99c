use lv_base::Text;

/// A label: the number of its function, its name, and the name's offset.
#[derive(Debug, Drop)]
pub struct LabelAt {
    pub function: u32,
    pub name: Text,
    pub at: u32,
}
