ghost use Rattle.std.specs.Prelude.{◌≡◌, IfOk};
ghost use Rattle.cost_table.specs.Names.{full_name, is_known, names_of, table_names, product_widths};

use hy_bits::{Memory, Text};
use std::alloc::Global;

/// The objects of a table's text, by the names that each has to hold.
#[derive(Clone, Copy, PartialEq, Eq, Debug)]
pub enum Names {
    /// Those of the whole table.
    Table,
    /// The widths of products.
    Products,
    /// The widths of conversions.
    Conversions,
}

impl Names {
    /// Whether the name is one of these.
    pub fn holds(self, name: &str) -> bool
        ensures { result ≡ is_known (names_of self) name.now }
    {
        match self {
            Names::Table => is_of_table(name),
            Names::Products => is_product_width(name),
            Names::Conversions => name == "1" || is_product_width(name),
        }
    }
}

/// Whether a table has a member of this name.
fn is_of_table(name: &str) -> bool
    ensures { result ≡ is_known table_names name.now }
{
    name == "a_mul"
        || name == "a2b"
        || name == "a2y"
        || name == "b2a"
        || name == "b2y"
        || name == "y2a"
        || name == "y2b"
        || name == "b_and"
        || name == "b_level"
        || name == "y_and"
}

/// Whether this is the name of a width that products have.
fn is_product_width(name: &str) -> bool
    ensures { result ≡ is_known product_widths name.now }
{
    name == "8" || name == "16" || name == "32" || name == "64"
}

/// The name of a member inside an object of the table, as `a2b.32`.
pub fn full_name(alloc: Global, group: &str, member: &str) -> Result<Text, Memory>
    ensures { IfOk result (λ name. name ≡ full_name group.now member.now) }
{
    let name = format!(in alloc; "{group}.{member}")?;
    Ok(Text::new(name.into_bytes()))
}
