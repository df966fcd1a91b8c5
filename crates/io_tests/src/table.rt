//! The tables of the tests. A row is `TEXT => WANT`; `~` and two hexadecimal digits stand for a byte.

/// The number of rows of each table, in order.
pub const ROWS: [u32; 8] = [31, 36, 8, 24, 10, 7, 5, 7];

/// Texts of A with their faults, at one port `unsigned char INPUT_A_x`: each kind of fault; a member's place before members that are
/// too many, and of these the least; names that are what their escapes say; of equal names the last; what is no number; what is read as a
/// float; and what is no text of one object.
pub const FAULTS: &str = "{} => Missing P0 INPUT_A_x
{\"INPUT_A_x\":1,\"k\":2} => Extra P0 k
{\"INPUT_A_x\":256} => Range P0 INPUT_A_x
{\"INPUT_A_x\":1.5} => NotWhole P0 INPUT_A_x
{\"INPUT_A_x\":[1]} => Shape P0 INPUT_A_x
{\"a\":0} => Missing P0 INPUT_A_x
{\"INPUT_A_x\":-1,\"a\":0} => Range P0 INPUT_A_x
{\"b\":0,\"INPUT_A_x\":1,\"ab\":0,\"b\":1} => Extra P0 ab
{\"INPUT_A_\":0,\"INPUT_A_x\":1} => Extra P0 INPUT_A_
{\"INPUT_A_xx\":0,\"INPUT_A_x\":1} => Extra P0 INPUT_A_xx
{\"INPUT_A_x\":1,\"\\u0061\\\"\\\\\\u0001\":2} => Extra P0 a\"\\~01
{\"INPUT_A_\\u0079\":1} => Missing P0 INPUT_A_x
{\"INPUT_A_x\":1,\"INPUT_A_x\":256} => Range P0 INPUT_A_x
{\"INPUT_A_x\":1,\"INPUT_A_x\":{}} => Shape P0 INPUT_A_x
{\"INPUT_A_x\":true} => Shape P0 INPUT_A_x
{\"INPUT_A_x\":null} => Shape P0 INPUT_A_x
{\"INPUT_A_x\":\"1\"} => Shape P0 INPUT_A_x
{\"INPUT_A_x\":[[1]]} => Shape P0 INPUT_A_x
{\"INPUT_A_x\":{\"INPUT_A_x\":1}} => Shape P0 INPUT_A_x
{\"INPUT_A_x\":1.0} => NotWhole P0 INPUT_A_x
{\"INPUT_A_x\":1e0} => NotWhole P0 INPUT_A_x
{\"INPUT_A_x\":1e-400} => NotWhole P0 INPUT_A_x
{\"INPUT_A_x\":-0} => NotWhole P0 INPUT_A_x
{\"INPUT_A_x\":18446744073709551616} => NotWhole P0 INPUT_A_x
{\"INPUT_A_x\":18446744073709551615} => Range P0 INPUT_A_x
{\"INPUT_A_x\":1e400} => Json P0 
{\"INPUT_A_x\":01} => Json P0 
{\"INPUT_A_x\":1}{} => Json P0 
[1] => Json P0 
1 => Json P0 
{\"INPUT_A_x\":\"~ff\"} => Json P0 ";

/// For each scalar the numbers at its ends with their words, and the numbers one past them with their faults.
pub const EDGES: &str = "B1 0 => 0
B1 1 => 1
B1 -1 => Range P1 y
B1 2 => Range P1 y
S8 -128 => 128
S8 127 => 127
S8 -129 => Range P1 y
S8 128 => Range P1 y
U8 0 => 0
U8 255 => 255
U8 -1 => Range P1 y
U8 256 => Range P1 y
S16 -32768 => 32768
S16 32767 => 32767
S16 -32769 => Range P1 y
S16 32768 => Range P1 y
U16 0 => 0
U16 65535 => 65535
U16 -1 => Range P1 y
U16 65536 => Range P1 y
S32 -2147483648 => 2147483648
S32 2147483647 => 2147483647
S32 -2147483649 => Range P1 y
S32 2147483648 => Range P1 y
U32 0 => 0
U32 4294967295 => 4294967295
U32 -1 => Range P1 y
U32 4294967296 => Range P1 y
S64 -9223372036854775808 => 9223372036854775808
S64 9223372036854775807 => 9223372036854775807
S64 -9223372036854775809 => NotWhole P1 y
S64 9223372036854775808 => Range P1 y
U64 0 => 0
U64 18446744073709551615 => 18446744073709551615
U64 -1 => Range P1 y
U64 18446744073709551616 => NotWhole P1 y";

/// Values of the nested port, with the fault and the path to it.
pub const PATHS: &str = "[] => Shape P0 INPUT_A_p
{\"a\":[]} => Missing P0 INPUT_A_p.z
{\"z\":0,\"a\":[{}]} => Shape P0 INPUT_A_p.a
{\"z\":0,\"a\":[{\"n\":[0,0],\"b\":0},7]} => Shape P0 INPUT_A_p.a[1]
{\"z\":0,\"a\":[{\"n\":[0,0],\"b\":2},7]} => Range P0 INPUT_A_p.a[0].b
{\"z\":0,\"a\":[{\"n\":[0,1.5],\"c\":0},7]} => NotWhole P0 INPUT_A_p.a[0].n[1]
{\"z\":0,\"a\":[{\"n\":[0,0],\"b\":0,\"c\":0},7]} => Extra P0 INPUT_A_p.a[0].c
{\"z\":0,\"y\":0,\"a\":[{\"n\":[0,0],\"b\":0},{\"n\":[0,0],\"b\":0}]} => Extra P0 INPUT_A_p.y";

/// Cost tables: the object `a2b`, the number `b_and` and what stands after the colon of `y_and`, with the answer. A table's first fault comes
/// before a later one and before extra members; then the least extra member, inside an object or not; the last of equal members
/// stays.
pub const TABLES: &str = "no_32 2 3} => Missing a2b.32
whole 2 -1} => NotWhole y_and
whole 4294967296 3} => TooLarge b_and
whole 4294967295 3} => Ok 
no_32 -1 3} => Missing a2b.32
whole -1 3,\"aa\":0} => NotWhole b_and
seven 2 3} => NotWhole a2b
with_7 2 3,\"zz\":0} => Extra a2b.7
with_7 2 3,\"a2b.32\":0} => Extra a2b.32
with_7 2 3,\"zz\":0,\"a\":0} => Extra a
no_32 2 3,\"a2b.32\":0} => Missing a2b.32
whole -1 3,\"b_and\":2} => Ok 
whole 2 3,\"b_and\":-1} => NotWhole b_and
whole 18446744073709551615 3} => TooLarge b_and
whole 18446744073709551616 3} => NotWhole b_and
whole 1.0 3} => NotWhole b_and
whole -0 3} => NotWhole b_and
whole 1e-400 3} => NotWhole b_and
whole 1e400 3} => Json 
whole true 3} => NotWhole b_and
whole \"2\" 3} => NotWhole b_and
whole [2] 3} => NotWhole b_and
whole 02 3} => Json 
whole 2 3}} => Json ";

/// Calls on two files in memory, `a` with 4 bytes and `b` with none.
pub const MEMORY: &str = "read a 9 => abcd
read a 4 => abcd
read a 2 => ab
read a 0 => 
read b 9 => 
read c 9 => failed
write c new => written
write a other => written
read c 9 => new
read a 9 => other";

/// The same, where calls 1, 3 and 4 fail.
pub const FAILING: &str = "read a 9 => abcd
read a 9 => failed
read a 9 => abcd
write a 12345 => failed
write d 67 => failed
read a 9 => 12
read d 9 => 6";

/// Calls on files of the system.
pub const REAL: &str = "write real.txt held~00~ff => written
read real.txt 9 => held~00~ff
read real.txt 3 => hel
read absent.txt 9 => failed
write absent/real.txt  => failed";

/// Writes to a sink of 7 bytes that takes 3 at a time, and whose call 1 fails.
pub const SINK: &str = " => 0
abcd => 3
d => failed
d => 1
efghi => 3
h => failed
 => 0";
