//! Programs with the lines of their runs, or of their first faults.

/// A row is a name, a source, the inputs of both parties, further words, each after a bar, the status and the line, with a grave accent between
/// two of them; an `@` stands between two rows.
pub const ROWS: &str =
    r#"2 char`unsigned char mpc_main(unsigned char INPUT_A_x, unsigned char INPUT_B_y) { return INPUT_A_x + INPUT_B_y; }`{"INPUT_A_x":200}`{"INPUT_B_y":100}``0`{"bound":0,"out":44,"undefined":null}@
2 int`int mpc_main(unsigned char INPUT_A_x, unsigned char INPUT_B_y) { return INPUT_A_x + INPUT_B_y; }`{"INPUT_A_x":200}`{"INPUT_B_y":100}``0`{"bound":0,"out":300,"undefined":null}@
3`int mpc_main(int INPUT_A_x, unsigned INPUT_B_y) { return INPUT_A_x < INPUT_B_y; }`{"INPUT_A_x":-1}`{"INPUT_B_y":1}``0`{"bound":0,"out":0,"undefined":null}@
4 /`int mpc_main(int INPUT_A_x, int INPUT_B_y) { return INPUT_A_x / INPUT_B_y; }`{"INPUT_A_x":-7}`{"INPUT_B_y":2}``0`{"bound":0,"out":-3,"undefined":null}@
4 %`int mpc_main(int INPUT_A_x, int INPUT_B_y) { return INPUT_A_x % INPUT_B_y; }`{"INPUT_A_x":-7}`{"INPUT_B_y":2}``0`{"bound":0,"out":-1,"undefined":null}@
5`int mpc_main(int INPUT_A_x, int INPUT_B_y) { return INPUT_A_x / INPUT_B_y; }`{"INPUT_A_x":-2147483648}`{"INPUT_B_y":-1}``0`{"bound":0,"out":-2147483648,"undefined":["Overflow",1,63]}@
6 /`unsigned mpc_main(unsigned INPUT_A_x, unsigned INPUT_B_y) { return INPUT_A_x / INPUT_B_y; }`{"INPUT_A_x":9}`{"INPUT_B_y":0}``0`{"bound":0,"out":4294967295,"undefined":["Divide",1,78]}@
6 %`unsigned mpc_main(unsigned INPUT_A_x, unsigned INPUT_B_y) { return INPUT_A_x % INPUT_B_y; }`{"INPUT_A_x":9}`{"INPUT_B_y":0}``0`{"bound":0,"out":9,"undefined":["Divide",1,78]}@
7 15`unsigned mpc_main(unsigned INPUT_A_x) {
unsigned x = INPUT_A_x, n = 0;
#pragma bound 4
while (x) { x &= x - 1; n++; }
return n; }`{"INPUT_A_x":15}`{}``0`{"bound":0,"out":4,"undefined":null}@
7 31`unsigned mpc_main(unsigned INPUT_A_x) {
unsigned x = INPUT_A_x, n = 0;
#pragma bound 4
while (x) { x &= x - 1; n++; }
return n; }`{"INPUT_A_x":31}`{}``0`{"bound":1,"out":0,"undefined":null}@
8 1`int mpc_main(int INPUT_A_x) {
#pragma bound 0
while (INPUT_A_x) INPUT_A_x--; return 5; }`{"INPUT_A_x":1}`{}``0`{"bound":1,"out":0,"undefined":null}@
8 0`int mpc_main(int INPUT_A_x) {
#pragma bound 0
while (INPUT_A_x) INPUT_A_x--; return 5; }`{"INPUT_A_x":0}`{}``0`{"bound":0,"out":5,"undefined":null}@
9 1`int mpc_main(int INPUT_A_c) { int a = 1, b = 2; int *p = INPUT_A_c ? &a : &b; *p = 7; return a * 10 + b; }`{"INPUT_A_c":1}`{}``0`{"bound":0,"out":72,"undefined":null}@
9 0`int mpc_main(int INPUT_A_c) { int a = 1, b = 2; int *p = INPUT_A_c ? &a : &b; *p = 7; return a * 10 + b; }`{"INPUT_A_c":0}`{}``0`{"bound":0,"out":17,"undefined":null}@
10 2`int mpc_main(int INPUT_A_i) { int a[3] = {4, 5, 6}; return a[INPUT_A_i]; }`{"INPUT_A_i":2}`{}``0`{"bound":0,"out":6,"undefined":null}@
10 3`int mpc_main(int INPUT_A_i) { int a[3] = {4, 5, 6}; return a[INPUT_A_i]; }`{"INPUT_A_i":3}`{}``0`{"bound":0,"out":0,"undefined":["Bounds",1,61]}@
10 -1`int mpc_main(int INPUT_A_i) { int a[3] = {4, 5, 6}; return a[INPUT_A_i]; }`{"INPUT_A_i":-1}`{}``0`{"bound":0,"out":0,"undefined":["PointerRange",1,61]}@
11 0`int f(int *p) { *p = 5; return 1; }
int mpc_main(int INPUT_A_x) { int y = 3; int r = INPUT_A_x && f(&y); return 10 * y + r; }`{"INPUT_A_x":0}`{}``0`{"bound":0,"out":30,"undefined":null}@
11 2`int f(int *p) { *p = 5; return 1; }
int mpc_main(int INPUT_A_x) { int y = 3; int r = INPUT_A_x && f(&y); return 10 * y + r; }`{"INPUT_A_x":2}`{}``0`{"bound":0,"out":51,"undefined":null}@
12 1`int mpc_main(int INPUT_A_x) { int r = 0; switch (INPUT_A_x) { case 1: r += 1; default: r += 10; case 2: r += 100; break; case 3: r = 7; } return r; }`{"INPUT_A_x":1}`{}``0`{"bound":0,"out":111,"undefined":null}@
12 2`int mpc_main(int INPUT_A_x) { int r = 0; switch (INPUT_A_x) { case 1: r += 1; default: r += 10; case 2: r += 100; break; case 3: r = 7; } return r; }`{"INPUT_A_x":2}`{}``0`{"bound":0,"out":100,"undefined":null}@
12 3`int mpc_main(int INPUT_A_x) { int r = 0; switch (INPUT_A_x) { case 1: r += 1; default: r += 10; case 2: r += 100; break; case 3: r = 7; } return r; }`{"INPUT_A_x":3}`{}``0`{"bound":0,"out":7,"undefined":null}@
12 9`int mpc_main(int INPUT_A_x) { int r = 0; switch (INPUT_A_x) { case 1: r += 1; default: r += 10; case 2: r += 100; break; case 3: r = 7; } return r; }`{"INPUT_A_x":9}`{}``0`{"bound":0,"out":110,"undefined":null}@
19 Missing`int mpc_main(unsigned char INPUT_A_x) { return INPUT_A_x; }`{}`{}``6`{"fault":"Input.Missing","file":"a","name":"INPUT_A_x"}@
19 Extra`int mpc_main(unsigned char INPUT_A_x) { return INPUT_A_x; }`{"INPUT_A_x":1,"k":2}`{}``6`{"fault":"Input.Extra","file":"a","name":"k"}@
19 Range`int mpc_main(unsigned char INPUT_A_x) { return INPUT_A_x; }`{"INPUT_A_x":256}`{}``6`{"fault":"Input.Range","file":"a","name":"INPUT_A_x"}@
19 NotWhole`int mpc_main(unsigned char INPUT_A_x) { return INPUT_A_x; }`{"INPUT_A_x":1.5}`{}``6`{"fault":"Input.NotWhole","file":"a","name":"INPUT_A_x"}@
19 Shape`int mpc_main(unsigned char INPUT_A_x) { return INPUT_A_x; }`{"INPUT_A_x":[1]}`{}``6`{"fault":"Input.Shape","file":"a","name":"INPUT_A_x"}@
19 Json`int mpc_main(unsigned char INPUT_A_x) { return INPUT_A_x; }`{"INPUT_A_x":1`{}``6`{"fault":"Input.Json","file":"a"}@
13`#include <stdint.h>
#define N 8
#define D 4
uint32_t mpc_main(uint32_t INPUT_A_p[N][D], uint32_t INPUT_B_q[D])
{
    uint32_t best = 0xffffffff;
    for (int i = 0; i < N; i++) {
        uint32_t sum = 0;
        for (int j = 0; j < D; j++) {
            uint32_t d = INPUT_A_p[i][j] - INPUT_B_q[j];
            sum += d * d;
        }
        if (sum < best) best = sum;
    }
    return best;
}
`{"INPUT_A_p":[[0,1,2,3],[10,11,12,13],[20,21,22,23],[30,31,32,33],[40,41,42,43],[50,51,52,53],[60,61,62,63],[70,71,72,73]]}`{"INPUT_B_q":[33,30,35,31]}``0`{"bound":0,"out":23,"undefined":null}@
20`unsigned mpc_main(unsigned INPUT_A_x) {
#pragma bound 1022
while (0)
#pragma bound 512
while (0) ;
return INPUT_A_x; }`{"INPUT_A_x":3}`{}``0`{"bound":0,"out":3,"undefined":null}@
20 more`unsigned mpc_main(unsigned INPUT_A_x) {
#pragma bound 1022
while (0)
#pragma bound 512
while (0) ;
;return INPUT_A_x; }`{"INPUT_A_x":3}`{}``5`{"at":[1,10],"fault":"Limit.Unroll"}@
20a`unsigned char g[65535]; unsigned mpc_main(unsigned INPUT_A_x) { return INPUT_A_x; }`{"INPUT_A_x":3}`{}``0`{"bound":0,"out":3,"undefined":null}@
20a more`unsigned char g[65536]; unsigned mpc_main(unsigned INPUT_A_x) { return INPUT_A_x; }`{"INPUT_A_x":3}`{}``5`{"at":[1,52],"fault":"Limit.Cells"}@
20b`unsigned mpc_main(unsigned INPUT_A_x) { return ((((((((((((((((((((((((((((((((((((((((((((((((((((((((((((((((((((((((((((((((((((((((((((((((((((((((((((((((((((((((((((((((((((((((((((((((((((((((((((((((((((((((((((((((((((((((((((((((((((((INPUT_A_x)))))))))))))))))))))))))))))))))))))))))))))))))))))))))))))))))))))))))))))))))))))))))))))))))))))))))))))))))))))))))))))))))))))))))))))))))))))))))))))))))))))))))))))))))))))))))))))))))))))); }`{"INPUT_A_x":3}`{}``0`{"bound":0,"out":3,"undefined":null}@
20b more`unsigned mpc_main(unsigned INPUT_A_x) { return (((((((((((((((((((((((((((((((((((((((((((((((((((((((((((((((((((((((((((((((((((((((((((((((((((((((((((((((((((((((((((((((((((((((((((((((((((((((((((((((((((((((((((((((((((((((((((((((((((((((INPUT_A_x))))))))))))))))))))))))))))))))))))))))))))))))))))))))))))))))))))))))))))))))))))))))))))))))))))))))))))))))))))))))))))))))))))))))))))))))))))))))))))))))))))))))))))))))))))))))))))))))))))))); }`{"INPUT_A_x":3}`{}``5`{"at":[1,247],"fault":"Limit.Deep"}@
18a`unsigned mpc_main(unsigned INPUT_A_x) { goto e; e: return 1; }`{}`{}``4`{"at":[1,41],"fault":"Construct","word":"goto"}@
18b`unsigned mpc_main(unsigned INPUT_A_x) { return mpc_main(INPUT_A_x); }`{}`{}``3`{"at":[1,48],"fault":"Type.Recursion"}@
18c`unsigned mpc_main(unsigned INPUT_A_x) { while (INPUT_A_x) INPUT_A_x--; return 0; }`{}`{}``3`{"at":[1,41],"fault":"Type.NoBound"}@
18d`unsigned mpc_main(unsigned INPUT_A_x) { return 18446744073709551616; }`{}`{}``3`{"at":[1,48],"fault":"Lex.BadLiteral"}@
18e``{}`{}``3`{"at":[1,1],"fault":"Type.NoEntry"}@
bound`unsigned mpc_main(unsigned INPUT_A_x) { while (INPUT_A_x) INPUT_A_x--; return 7; }`{"INPUT_A_x":3}`{}`|--bound|3`0`{"bound":0,"out":7,"undefined":null}@
bound passed`unsigned mpc_main(unsigned INPUT_A_x) { while (INPUT_A_x) INPUT_A_x--; return 7; }`{"INPUT_A_x":4}`{}`|--bound=3`0`{"bound":1,"out":0,"undefined":null}@
struct`struct r { unsigned a; unsigned b; }; struct r mpc_main(unsigned INPUT_A_x) { struct r o; o.a = INPUT_A_x; o.b = 7; return o; }`{"INPUT_A_x":9}`{}``0`{"bound":0,"out":{"a":9,"b":7},"undefined":null}@
nested`struct q { signed char z; _Bool t; }; struct r { struct q y[2]; long long a; }; struct r mpc_main(long long INPUT_A_x) { struct r o = {{{-1, 2}, {3}}, INPUT_A_x}; return o; }`{"INPUT_A_x":-9223372036854775808}`{}``0`{"bound":0,"out":{"a":-9223372036854775808,"y":[{"t":1,"z":-1},{"t":0,"z":3}]},"undefined":null}@
pointer cast`int mpc_main(int INPUT_A_x) { int *p = &INPUT_A_x; return (int)p; }`{"INPUT_A_x":9}`{}``3`{"at":[1,59],"fault":"Type.PointerForm"}@
unset`int mpc_main(int INPUT_A_x) { int y; return y + INPUT_A_x; }`{"INPUT_A_x":9}`{}``0`{"bound":0,"out":9,"undefined":["Unset",1,45]}@
no result`int f(int x) { if (x) return 2; } int mpc_main(int INPUT_A_x) { return f(INPUT_A_x); }`{"INPUT_A_x":0}`{}``0`{"bound":0,"out":0,"undefined":["NoResult",1,72]}@
B range`int mpc_main(int INPUT_A_x, unsigned char INPUT_B_p[2]) { return INPUT_B_p[1]; }`{"INPUT_A_x":0}`{"INPUT_B_p":[1,256]}``6`{"fault":"Input.Range","file":"b","name":"INPUT_B_p[1]"}@
A before B`int mpc_main(int INPUT_A_x, int INPUT_B_y) { return 0; }`{`{``6`{"fault":"Input.Json","file":"a"}@
source before inputs`int mpc_main(int INPUT_A_x) { return z; }`{`{``3`{"at":[1,38],"fault":"Type.Unknown"}@
unclosed`int mpc_main(int INPUT_A_x) { return 0; /*`{}`{}``3`{"at":[1,41],"fault":"Lex.OpenComment"}@
include`#include <stdint.h>
#include <stdbool.h>
uint8_t mpc_main(bool INPUT_A_x) { return INPUT_A_x ? 0xff : 017; }`{"INPUT_A_x":1}`{}``0`{"bound":0,"out":255,"undefined":null}@
twice`int x; int x; int mpc_main(int INPUT_A_x) { return 0; }`{}`{}``3`{"at":[1,12],"fault":"Type.Twice"}@
shift`int mpc_main(int INPUT_A_x) { return 1 << INPUT_A_x; }`{"INPUT_A_x":31}`{}``0`{"bound":0,"out":-2147483648,"undefined":["Shift",1,40]}@
dead`int mpc_main(int INPUT_A_x) { int *p; { int y = INPUT_A_x; p = &y; } return *p; }`{"INPUT_A_x":5}`{}``0`{"bound":0,"out":5,"undefined":["Dead",1,78]}"#;

/// The number of rows.
pub const COUNT: u32 = 56;
