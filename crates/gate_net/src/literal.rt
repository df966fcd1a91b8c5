//! Literals and gates.
ghost use Rattle.std.specs.Prelude.{◌≡◌, ◌+◌, ◌-◌, ◌*◌, ◌%◌, ◌^◌, ◌<◌, ◌↔◌, IsTrue};
ghost use Rattle.gate_net.specs.Literal.{complement_of, plain_of, and_gate, plain_xor_gate};

/// A wire of a circuit or its complement. The code 0 is the constant false and 1 the constant true;
/// variable `v` is `2 * v + 2` and its complement `2 * v + 3`. The inputs are the first variables,
/// and the gates follow in order.
#[derive(Clone, Copy, PartialEq, Eq, Hash, Debug)]
pub struct Lit {
    pub code: u32,
}

impl Lit {
    /// The constant false.
    pub const FALSE: Lit = Lit { code: 0 };

    /// The constant true.
    pub const TRUE: Lit = Lit { code: 1 };

    /// The literal of variable `variable`, without a complement.
    pub fn of_variable(variable: u32) -> Lit
        requires { variable < 2 ^ 31 - 1 }
        ensures { result.code ≡ 2 * variable + 2 }
    {
        Lit {
            code: 2 * variable + 2,
        }
    }

    /// The complement. It costs no gate.
    pub fn complement(self) -> Lit
        ensures { result ≡ complement_of self }
    {
        if self.code % 2 == 1 {
            Lit {
                code: self.code - 1,
            }
        } else {
            Lit {
                code: self.code + 1,
            }
        }
    }

    /// Whether this is a variable's complement, or the constant true.
    pub fn is_complement(self) -> bool
        ensures { IsTrue result ↔ (self.code % 2 ≡ 1) }
    {
        self.code % 2 == 1
    }

    /// The literal of the same wire without a complement.
    pub fn plain(self) -> Lit
        ensures { result ≡ plain_of self }
    {
        Lit {
            code: self.code - self.code % 2,
        }
    }
}

/// A gate over two literals that stand before it. It makes the next variable.
#[derive(Clone, Copy, PartialEq, Eq, Hash, Debug)]
pub enum Gate {
    And(Lit, Lit),
    Xor(Lit, Lit),
}

impl Gate {
    /// The And of two literals, with its inputs in ascending order of their codes.
    pub fn ordered_and(a: Lit, b: Lit) -> Gate
        ensures { result ≡ and_gate a b }
    {
        if a.code < b.code {
            Gate::And(a, b)
        } else {
            Gate::And(b, a)
        }
    }

    /// The Xor of two literals, with its inputs in ascending order of their codes.
    pub fn ordered_xor(a: Lit, b: Lit) -> Gate
        ensures { result ≡ plain_xor_gate a b }
    {
        if a.code < b.code {
            Gate::Xor(a, b)
        } else {
            Gate::Xor(b, a)
        }
    }
}
