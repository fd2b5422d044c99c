/// Something that an instruction of flat code did: the place of the instruction, an element of an object, and a value. Which
/// element and which value these are, the instruction says.
#[derive(Clone, Copy, Debug, PartialEq, Eq)]
pub struct Event {
    pub place: usize,
    pub element: u128,
    pub value: i128,
}
