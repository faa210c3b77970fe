// Where the fields lie in the numbers that cross to hosts: specs/Bits.antt in code. Each number once.

// An answer: kind, a refusal's number or a test, ports, length, start.
pub const KIND_SPAN: u64 = 256;

pub const DETAIL_SPAN: u64 = 256;

pub const DETAIL_PLACE: u64 = KIND_SPAN;

pub const PORTS_SPAN: u64 = 65_536;

pub const PORTS_PLACE: u64 = DETAIL_PLACE * DETAIL_SPAN;

pub const LENGTH_SPAN: usize = 65_536;

pub const LENGTH_PLACE: u64 = PORTS_PLACE * PORTS_SPAN;

pub const START_SPAN: usize = 65_536;

pub const START_PLACE: u64 = LENGTH_PLACE * (LENGTH_SPAN as u64);

// A drop, behind the test: clause or case, value.
pub const CLAUSE_SPAN: u64 = 16;

pub const CLAUSE_PLACE: u64 = DETAIL_PLACE * DETAIL_SPAN;

pub const VALUE_SPAN: u64 = 2_199_023_255_552;

pub const VALUE_PLACE: u64 = CLAUSE_PLACE * CLAUSE_SPAN;

// A writing or a saving: the refusal, and the length above it.
pub const REFUSAL_SPAN: u32 = 65_536;

pub const WIDE_REFUSAL_SPAN: u64 = REFUSAL_SPAN as u64;
