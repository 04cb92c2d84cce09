// What an entry of an environment binds.

/// What an entry of an environment binds.
#[derive(Drop)]
pub enum Entry<'a> {
    One(&'a [u8]),
    /// The functions of a group, in order.
    Many(Vec<&'a [u8]>),
}
