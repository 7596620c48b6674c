// What a table file looks like, to its reader and its writer: a field's header; a row's field, without a margin and with one; the end field.
pub const HEADER_BYTES: usize = 3;

pub const ROW_TAG: u8 = 0x01;

pub const ROW_LENGTH: u16 = 7;

pub const ROW_BYTES: usize = 10;

pub const MARGIN_TAG: u8 = 0x02;

pub const MARGIN_LENGTH: u16 = 9;

pub const MARGIN_BYTES: usize = 12;

pub const END_TAG: u8 = 0x0f;

pub const END_LENGTH: u16 = 0;

pub const END_BYTES: usize = 3;
