// What a call is asked for, and the slices that it hands on.

// Bytes that are read, and bytes that are written.
pub type In<'a> = &'a [u8];

pub type Out<'a> = &'a mut [u8];

// The words of a table, and room for words.
pub type Words<'a> = &'a [u32];

pub type Room<'a> = &'a mut [u32];

// A reading: who reads, and the root's name and type.
#[derive(Clone, Copy)]
pub struct Asked {
    pub party: u32,
    pub name: u32,
    pub ty: u32,
}

// A writing: the same, and the mode.
#[derive(Clone, Copy)]
pub struct Order {
    pub party: u32,
    pub name: u32,
    pub ty: u32,
    pub mode: u32,
}
