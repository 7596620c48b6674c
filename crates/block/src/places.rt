// Where each field of the block stands: specs/Places.antt and docs/block.md have the same names.
pub const N_AT: usize = 0;

pub const COUNT_AT: usize = 1;

pub const LAST_AT: usize = 2;

pub const FREE_AT: usize = 3;

pub const CLOCK_AT: usize = 4;

pub const NEXT_AT: usize = 8;

pub const OPEN_AT: usize = 12;

pub const RESTED_AT: usize = 14;

pub const C_AT: usize = 16;

pub const D_AT: usize = 48;

pub const T_AT: usize = 80;

pub const U_AT: usize = 112;

pub const RUN_AT: usize = 144;

pub const STAMP_AT: usize = 176;

pub const RANK_AT: usize = 240;

pub const BUDGET_AT: usize = 256;

pub const USED_AT: usize = 272;

pub const TICKET_AT: usize = 288;

pub const M_AT: usize = 320;

pub const RESERVED_AT: usize = 352;
// How many bytes are kept free from there on, to the end of the block.
pub const RESERVED_BYTES: usize = 160;

pub const BLOCK_BYTES: usize = 512;
