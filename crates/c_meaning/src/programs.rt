use crate::statements::TypedBlock;
use crate::types::CType;
use c_tree::Place;
use hy_bits::Text;
use sqlite_items::Items;

/// A function with its name at its place, its result's type, its parameters by the numbers of their objects, and its body.
#[derive(Drop)]
pub struct TypedFunction {
    pub name: Text,
    pub place: Place,
    pub result: CType,
    pub params: Items<u32>,
    pub body: TypedBlock,
}
