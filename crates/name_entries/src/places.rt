use type_scopes::Scope;

/// Where declarations stand: their scope, and the number of the function around them.
#[derive(Clone, Copy)]
pub struct Region {
    pub scope: Scope,
    pub owner: Option<u32>,
}

/// A declared name with its offset, and the token behind which it is declared.
#[derive(Clone, Copy)]
pub struct Named<'a> {
    pub name: &'a [u8],
    pub at: u32,
    pub behind: u32,
}
