ghost use Rattle.std.specs.Prelude.{◌≡◌, ◌+◌, ◌<◌, ◌^◌};
ghost use Rattle.c_scan.specs.Pieces.{after as after_byte, further as further_by};

use c_tree::Place;

/// The place after a byte that stands here.
pub fn after(place: Place, byte: u8) -> Place
    requires line { place.line < 2 ^ 31 }
    requires column { place.column < 2 ^ 31 }
    ensures { result ≡ after_byte place byte }
{
    if byte == b'\n' {
        Place {
            line: place.line + 1,
            column: 1,
        }
    } else {
        Place {
            line: place.line,
            column: place.column + 1,
        }
    }
}

/// The place so many bytes further on the line.
pub fn further(place: Place, count: usize) -> Place
    requires column { place.column + count < 2 ^ 32 }
    ensures { result ≡ further_by place count }
{
    Place {
        line: place.line,
        column: place.column + count as u32,
    }
}
