// The library for hosts in C and Rust: every function that crosses. A slice crosses as a pointer and a length, an
// array or a struct as a pointer. Entry points: the functions marked #[unsafe(no_mangle)], in packet_call, answer_texts,
// table_calls, questions, packets, announces, recordings, saved_tables, surveys, opinions and hashing. None has a
// `requires`; each ends on any bytes, returns a refusal as its number, and leaves the caller's buffers as they were
// where it refuses; a survey notes the refusal of a recording. include/haskumye.h declares them for C.
#![tactic(auto)]

mod announces;
mod answer_texts;
mod hashing;
mod opinions;
mod packet_call;
mod packets;
mod questions;
mod recordings;
mod saved_tables;
mod surveys;
mod table_calls;
