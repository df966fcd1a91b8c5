//! What a C compiler computes.
//!
//! The lines were printed by a C program that gcc 12.2 compiled for x86-64: for each width it held a line's words in `uintN_t` and
//! `intN_t` variables (for one bit, in bit-fields), computed each operation by C's own operator, and printed the result as an
//! unsigned number. Only where C leaves the operation undefined did it print what this crate promises instead: a quotient by
//! zero is all ones unsigned, and signed 1 for a negative dividend and else -1; a remainder by zero is the dividend; the least
//! number by -1 is itself, with remainder 0; a shift by the width or more is 0, or in a signed shift to the right all sign bits.
//! The shifts of one bit, which C does on a wider type, were written by hand from these rules.

/// A width in bits, two words, and then their sum, difference, product, unsigned and signed quotient, unsigned and signed
/// remainder, and, or, xor, unsigned and signed comparison and equality; then minus the first word, and its complement.
pub const VALUES: &str = "\
1 0 0 0 0 0 1 1 0 0 0 0 0 0 0 1 0 1
1 0 1 1 1 0 0 0 0 0 0 1 1 1 0 0 0 1
1 1 0 1 1 0 1 1 1 1 0 1 1 0 1 0 1 0
1 1 1 0 0 1 1 1 0 0 1 1 0 0 0 1 1 0
8 15 6f 84 a6 1b 0 0 15 15 5 7f 7a 1 1 0 eb ea
8 6f 15 84 5a 1b 5 5 6 6 5 7f 7a 0 0 0 91 90
8 0 0 0 0 0 ff ff 0 0 0 0 0 0 0 1 0 ff
8 1 0 1 1 0 ff ff 1 1 0 1 1 0 0 0 ff fe
8 ff 0 ff ff 0 ff 1 ff ff 0 ff ff 0 1 0 1 0
8 80 0 80 80 0 ff 1 80 80 0 80 80 0 1 0 80 7f
8 80 ff 7f 81 80 0 80 80 0 80 ff 7f 1 1 0 80 7f
8 80 1 81 7f 80 80 80 0 0 0 81 81 0 1 0 80 7f
8 7f ff 7e 80 81 0 81 7f 0 7f ff 80 1 0 0 81 80
8 ff 7f 7e 80 81 2 0 1 ff 7f ff 80 0 1 0 1 0
8 7f 80 ff ff 80 0 0 7f 7f 0 ff ff 1 0 0 81 80
8 7f 7f fe 0 1 1 1 0 0 7f 7f 0 0 0 1 81 80
8 ff ff fe 0 1 1 1 0 0 ff ff 0 0 0 1 1 0
8 f9 2 fb f7 f2 7c fd 1 ff 0 fb fb 0 1 0 7 6
8 7 fe 5 9 f2 0 fd 7 1 6 ff f9 1 0 0 f9 f8
8 f9 fe f7 fb e 0 3 f9 ff f8 ff 7 1 1 0 7 6
16 7c15 de6f 5a84 9da6 31b 0 fffd 7c15 1762 5c05 fe7f a27a 1 0 0 83eb 83ea
16 de6f 7c15 5a84 625a 31b 1 0 625a de6f 5c05 fe7f a27a 0 1 0 2191 2190
16 0 0 0 0 0 ffff ffff 0 0 0 0 0 0 0 1 0 ffff
16 1 0 1 1 0 ffff ffff 1 1 0 1 1 0 0 0 ffff fffe
16 ffff 0 ffff ffff 0 ffff 1 ffff ffff 0 ffff ffff 0 1 0 1 0
16 8000 0 8000 8000 0 ffff 1 8000 8000 0 8000 8000 0 1 0 8000 7fff
16 8000 ffff 7fff 8001 8000 0 8000 8000 0 8000 ffff 7fff 1 1 0 8000 7fff
16 8000 1 8001 7fff 8000 8000 8000 0 0 0 8001 8001 0 1 0 8000 7fff
16 7fff ffff 7ffe 8000 8001 0 8001 7fff 0 7fff ffff 8000 1 0 0 8001 8000
16 ffff 7fff 7ffe 8000 8001 2 0 1 ffff 7fff ffff 8000 0 1 0 1 0
16 7fff 8000 ffff ffff 8000 0 0 7fff 7fff 0 ffff ffff 1 0 0 8001 8000
16 7fff 7fff fffe 0 1 1 1 0 0 7fff 7fff 0 0 0 1 8001 8000
16 ffff ffff fffe 0 1 1 1 0 0 ffff ffff 0 0 0 1 1 0
16 fff9 2 fffb fff7 fff2 7ffc fffd 1 ffff 0 fffb fffb 0 1 0 7 6
16 7 fffe 5 9 fff2 0 fffd 7 1 6 ffff fff9 1 0 0 fff9 fff8
16 fff9 fffe fff7 fffb e 0 3 fff9 ffff fff8 ffff 7 1 1 0 7 6
32 7f4a7c15 9abcde6f 1a075a84 e48d9da6 8a52031b 0 ffffffff 7f4a7c15 1a075a84 1a085c05 fffefe7f e5f6a27a 1 0 0 80b583eb 80b583ea
32 9abcde6f 7f4a7c15 1a075a84 1b72625a 8a52031b 1 0 1b72625a 9abcde6f 1a085c05 fffefe7f e5f6a27a 0 1 0 65432191 65432190
32 0 0 0 0 0 ffffffff ffffffff 0 0 0 0 0 0 0 1 0 ffffffff
32 1 0 1 1 0 ffffffff ffffffff 1 1 0 1 1 0 0 0 ffffffff fffffffe
32 ffffffff 0 ffffffff ffffffff 0 ffffffff 1 ffffffff ffffffff 0 ffffffff ffffffff 0 1 0 1 0
32 80000000 0 80000000 80000000 0 ffffffff 1 80000000 80000000 0 80000000 80000000 0 1 0 80000000 7fffffff
32 80000000 ffffffff 7fffffff 80000001 80000000 0 80000000 80000000 0 80000000 ffffffff 7fffffff 1 1 0 80000000 7fffffff
32 80000000 1 80000001 7fffffff 80000000 80000000 80000000 0 0 0 80000001 80000001 0 1 0 80000000 7fffffff
32 7fffffff ffffffff 7ffffffe 80000000 80000001 0 80000001 7fffffff 0 7fffffff ffffffff 80000000 1 0 0 80000001 80000000
32 ffffffff 7fffffff 7ffffffe 80000000 80000001 2 0 1 ffffffff 7fffffff ffffffff 80000000 0 1 0 1 0
32 7fffffff 80000000 ffffffff ffffffff 80000000 0 0 7fffffff 7fffffff 0 ffffffff ffffffff 1 0 0 80000001 80000000
32 7fffffff 7fffffff fffffffe 0 1 1 1 0 0 7fffffff 7fffffff 0 0 0 1 80000001 80000000
32 ffffffff ffffffff fffffffe 0 1 1 1 0 0 ffffffff ffffffff 0 0 0 1 1 0
32 fffffff9 2 fffffffb fffffff7 fffffff2 7ffffffc fffffffd 1 ffffffff 0 fffffffb fffffffb 0 1 0 7 6
32 7 fffffffe 5 9 fffffff2 0 fffffffd 7 1 6 ffffffff fffffff9 1 0 0 fffffff9 fffffff8
32 fffffff9 fffffffe fffffff7 fffffffb e 0 3 fffffff9 ffffffff fffffff8 ffffffff 7 1 1 0 7 6
64 9e3779b97f4a7c15 123456789abcde6f b06bd0321a075a84 8c032340e48d9da6 f4625008a52031b 8 fffffffffffffffb c94c5f4a963889d f93d2a1484fad440 123450381a085c05 9e377ff9fffefe7f 8c032fc1e5f6a27a 0 1 0 61c8864680b583eb 61c8864680b583ea
64 123456789abcde6f 9e3779b97f4a7c15 b06bd0321a075a84 73fcdcbf1b72625a f4625008a52031b 0 0 123456789abcde6f 123456789abcde6f 123450381a085c05 9e377ff9fffefe7f 8c032fc1e5f6a27a 1 0 0 edcba98765432191 edcba98765432190
64 0 0 0 0 0 ffffffffffffffff ffffffffffffffff 0 0 0 0 0 0 0 1 0 ffffffffffffffff
64 1 0 1 1 0 ffffffffffffffff ffffffffffffffff 1 1 0 1 1 0 0 0 ffffffffffffffff fffffffffffffffe
64 ffffffffffffffff 0 ffffffffffffffff ffffffffffffffff 0 ffffffffffffffff 1 ffffffffffffffff ffffffffffffffff 0 ffffffffffffffff ffffffffffffffff 0 1 0 1 0
64 8000000000000000 0 8000000000000000 8000000000000000 0 ffffffffffffffff 1 8000000000000000 8000000000000000 0 8000000000000000 8000000000000000 0 1 0 8000000000000000 7fffffffffffffff
64 8000000000000000 ffffffffffffffff 7fffffffffffffff 8000000000000001 8000000000000000 0 8000000000000000 8000000000000000 0 8000000000000000 ffffffffffffffff 7fffffffffffffff 1 1 0 8000000000000000 7fffffffffffffff
64 8000000000000000 1 8000000000000001 7fffffffffffffff 8000000000000000 8000000000000000 8000000000000000 0 0 0 8000000000000001 8000000000000001 0 1 0 8000000000000000 7fffffffffffffff
64 7fffffffffffffff ffffffffffffffff 7ffffffffffffffe 8000000000000000 8000000000000001 0 8000000000000001 7fffffffffffffff 0 7fffffffffffffff ffffffffffffffff 8000000000000000 1 0 0 8000000000000001 8000000000000000
64 ffffffffffffffff 7fffffffffffffff 7ffffffffffffffe 8000000000000000 8000000000000001 2 0 1 ffffffffffffffff 7fffffffffffffff ffffffffffffffff 8000000000000000 0 1 0 1 0
64 7fffffffffffffff 8000000000000000 ffffffffffffffff ffffffffffffffff 8000000000000000 0 0 7fffffffffffffff 7fffffffffffffff 0 ffffffffffffffff ffffffffffffffff 1 0 0 8000000000000001 8000000000000000
64 7fffffffffffffff 7fffffffffffffff fffffffffffffffe 0 1 1 1 0 0 7fffffffffffffff 7fffffffffffffff 0 0 0 1 8000000000000001 8000000000000000
64 ffffffffffffffff ffffffffffffffff fffffffffffffffe 0 1 1 1 0 0 ffffffffffffffff ffffffffffffffff 0 0 0 1 1 0
64 fffffffffffffff9 2 fffffffffffffffb fffffffffffffff7 fffffffffffffff2 7ffffffffffffffc fffffffffffffffd 1 ffffffffffffffff 0 fffffffffffffffb fffffffffffffffb 0 1 0 7 6
64 7 fffffffffffffffe 5 9 fffffffffffffff2 0 fffffffffffffffd 7 1 6 ffffffffffffffff fffffffffffffff9 1 0 0 fffffffffffffff9 fffffffffffffff8
64 fffffffffffffff9 fffffffffffffffe fffffffffffffff7 fffffffffffffffb e 0 3 fffffffffffffff9 ffffffffffffffff fffffffffffffff8 ffffffffffffffff 7 1 1 0 7 6";

/// A width in bits, a word, a count, and then the shifts to the left, to the right and, of the signed word, to the right.
pub const SHIFTS: &str = "\
1 1 0 1 1 1
1 1 1 0 0 1
1 1 ffffffffffffffff 0 0 1
8 80 0 80 80 80
8 80 1 0 40 c0
8 80 7 0 1 ff
8 80 8 0 0 ff
8 80 ffffffffffffffff 0 0 ff
8 7f 0 7f 7f 7f
8 7f 1 fe 3f 3f
8 7f 7 80 0 0
8 7f 8 0 0 0
8 7f ffffffffffffffff 0 0 0
8 15 0 15 15 15
8 15 1 2a a a
8 15 7 80 0 0
8 15 8 0 0 0
8 15 ffffffffffffffff 0 0 0
16 8000 0 8000 8000 8000
16 8000 1 0 4000 c000
16 8000 f 0 1 ffff
16 8000 10 0 0 ffff
16 8000 ffffffffffffffff 0 0 ffff
16 7fff 0 7fff 7fff 7fff
16 7fff 1 fffe 3fff 3fff
16 7fff f 8000 0 0
16 7fff 10 0 0 0
16 7fff ffffffffffffffff 0 0 0
16 7c15 0 7c15 7c15 7c15
16 7c15 1 f82a 3e0a 3e0a
16 7c15 f 8000 0 0
16 7c15 10 0 0 0
16 7c15 ffffffffffffffff 0 0 0
32 80000000 0 80000000 80000000 80000000
32 80000000 1 0 40000000 c0000000
32 80000000 1f 0 1 ffffffff
32 80000000 20 0 0 ffffffff
32 80000000 ffffffffffffffff 0 0 ffffffff
32 7fffffff 0 7fffffff 7fffffff 7fffffff
32 7fffffff 1 fffffffe 3fffffff 3fffffff
32 7fffffff 1f 80000000 0 0
32 7fffffff 20 0 0 0
32 7fffffff ffffffffffffffff 0 0 0
32 7f4a7c15 0 7f4a7c15 7f4a7c15 7f4a7c15
32 7f4a7c15 1 fe94f82a 3fa53e0a 3fa53e0a
32 7f4a7c15 1f 80000000 0 0
32 7f4a7c15 20 0 0 0
32 7f4a7c15 ffffffffffffffff 0 0 0
64 8000000000000000 0 8000000000000000 8000000000000000 8000000000000000
64 8000000000000000 1 0 4000000000000000 c000000000000000
64 8000000000000000 3f 0 1 ffffffffffffffff
64 8000000000000000 40 0 0 ffffffffffffffff
64 8000000000000000 ffffffffffffffff 0 0 ffffffffffffffff
64 7fffffffffffffff 0 7fffffffffffffff 7fffffffffffffff 7fffffffffffffff
64 7fffffffffffffff 1 fffffffffffffffe 3fffffffffffffff 3fffffffffffffff
64 7fffffffffffffff 3f 8000000000000000 0 0
64 7fffffffffffffff 40 0 0 0
64 7fffffffffffffff ffffffffffffffff 0 0 0
64 9e3779b97f4a7c15 0 9e3779b97f4a7c15 9e3779b97f4a7c15 9e3779b97f4a7c15
64 9e3779b97f4a7c15 1 3c6ef372fe94f82a 4f1bbcdcbfa53e0a cf1bbcdcbfa53e0a
64 9e3779b97f4a7c15 3f 8000000000000000 1 ffffffffffffffff
64 9e3779b97f4a7c15 40 0 0 ffffffffffffffff
64 9e3779b97f4a7c15 ffffffffffffffff 0 0 ffffffffffffffff";

/// From a width, to a width, 1 for the signed or 0 for the unsigned reading, a word, and what it becomes.
pub const EXTENSIONS: &str = "\
8 16 1 95 ff95
8 16 1 6f 6f
8 16 0 95 95
8 16 0 6f 6f
8 64 1 95 ffffffffffffff95
8 64 1 6f 6f
8 64 0 95 95
8 64 0 6f 6f
16 32 1 7c95 7c95
16 32 1 de6f ffffde6f
16 32 0 7c95 7c95
16 32 0 de6f de6f
32 64 1 7f4a7c95 7f4a7c95
32 64 1 9abcde6f ffffffff9abcde6f
32 64 0 7f4a7c95 7f4a7c95
32 64 0 9abcde6f 9abcde6f
64 8 1 9e3779b97f4a7c95 95
64 8 1 123456789abcde6f 6f
64 16 0 9e3779b97f4a7c95 7c95
64 16 0 123456789abcde6f de6f
32 32 1 7f4a7c95 7f4a7c95
32 32 1 9abcde6f 9abcde6f";
