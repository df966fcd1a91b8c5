//! Where a statement stands.

use c_meaning::CType;
use sqlite_items::Items;

/// The function that a statement stands in: its result's type, and the bound of the turns of loops that have none of their own. The names that it
/// declares are those from the number `base` on, and `addressed` tells of each of them in order whether the function takes its address by it.
#[derive(Drop)]
pub struct Body {
    pub result: CType,
    pub bound: Option<u32>,
    pub base: u32,
    pub addressed: Items<bool>,
}
