//! What a program is executed in.
use c_meaning::{Object, StructType, TypedFunction};
use std::alloc::Global;

/// The structs and objects of a program, the functions that stand before what is executed, and the region of its nodes, which is below the number
/// of regions.
#[derive(Clone, Copy)]
pub struct World<'a> {
    pub alloc: Global,
    pub structs: &'a [StructType],
    pub objects: &'a [Object],
    pub functions: &'a [TypedFunction],
    pub region: u32,
    pub regions: u32,
}
