use jc_decode::Laid;

/// What a method is written as.
#[derive(Clone, Copy)]
pub enum Body<'a> {
    /// Its code, with its handlers and the numbers of its header.
    Code(&'a Laid),
    /// The header of a method without code, as it stood: two bytes or four.
    Header(&'a [u8]),
}

/// A described method of a class.
#[derive(Clone, Copy)]
pub struct WrittenMember<'a> {
    /// Where it stood in the info of the Method component.
    pub offset: u16,
    /// Its first entry of the former handler table, where it had one.
    pub handlers_from: Option<u16>,
    pub body: Body<'a>,
}
