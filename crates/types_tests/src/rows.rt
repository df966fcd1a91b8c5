//! Short programs with what typing says of them, and their texts.

/// Each row begins with `@@` on a line of its own with what is wanted, after `bound 3: ` where that is the bound of loops without one: the kind and
/// the place of the first fault, or `ok` with visits, nodes, gates, cells and the numbers of objects, functions and ports. The text of
/// the program follows.
pub const ROWS: &str = r#"ok 3 160 6656 2 2 1 2
unsigned mpc_main(unsigned INPUT_A_x, unsigned INPUT_B_y) { return INPUT_A_x + INPUT_B_y; }
@@ ok 230 121632 2558464 43 9 1 2
#include <stdint.h>
#define N 8
#define D 4
uint32_t mpc_main(uint32_t INPUT_A_p[N][D], uint32_t INPUT_B_q[D])
{
    uint32_t best = 0xffffffff;
    for (int i = 0; i < N; i++) {
        uint32_t sum = 0;
        for (int j = 0; j < D; j++) {
            uint32_t d = INPUT_A_p[i][j] - INPUT_B_q[j];
            sum += d * d;
        }
        if (sum < best) best = sum;
    }
    return best;
}

@@ ok 2694 11185696 160254464 395 9 1 2
#include <stdint.h>
#define N 96
#define D 4
uint32_t mpc_main(uint32_t INPUT_A_p[N][D], uint32_t INPUT_B_q[D])
{
    uint32_t best = 0xffffffff;
    for (int i = 0; i < N; i++) {
        uint32_t sum = 0;
        for (int j = 0; j < D; j++) {
            uint32_t d = INPUT_A_p[i][j] - INPUT_B_q[j];
            sum += d * d;
        }
        if (sum < best) best = sum;
    }
    return best;
}

@@ ok 78 1166128 91461632 428 6 1 2
unsigned mpc_main(unsigned char INPUT_A_p[400], unsigned INPUT_B_q[24]) { unsigned s = 0; for (int j = 0; j < 24; j++) s += INPUT_A_p[INPUT_B_q[j]]; return s; }
@@ Recursion 1:48
unsigned mpc_main(unsigned INPUT_A_x) { return mpc_main(INPUT_A_x); }
@@ NoBound 1:41
unsigned mpc_main(unsigned INPUT_A_x) { while (INPUT_A_x) INPUT_A_x--; return 0; }
@@ bound 3: ok 10 464 19456 1 1 1 1
unsigned mpc_main(unsigned INPUT_A_x) { while (INPUT_A_x) INPUT_A_x--; return 0; }
@@ NoEntry 1:1

@@ ok 1048576 33619904 1075836928 1 1 1 1
unsigned mpc_main(unsigned INPUT_A_x) {
#pragma bound 1022
while (0)
#pragma bound 512
while (0) ;
return INPUT_A_x; }
@@ Unroll 1:10
unsigned mpc_main(unsigned INPUT_A_x) {
#pragma bound 1022
while (0)
#pragma bound 512
while (0) ;
; return INPUT_A_x; }
@@ ok 3 1048672 33557504 65536 2 1 1
unsigned char g[65535]; unsigned mpc_main(unsigned INPUT_A_x) { return INPUT_A_x; }
@@ Cells 1:52
unsigned char g[65536]; unsigned mpc_main(unsigned INPUT_A_x) { return INPUT_A_x; }
@@ ok 4 784 61952 5 3 1 2
int mpc_main(int INPUT_A_x, int INPUT_B_y) { int a[3] = {1,2,3}; return 0; }
@@ Mismatch 1:55
int mpc_main(int INPUT_A_x, int INPUT_B_y) { int a[3] = {1,2,3,4}; return 0; }
@@ ok 4 720 59904 5 3 1 2
int mpc_main(int INPUT_A_x, int INPUT_B_y) { int a[3] = {1}; return 0; }
@@ ok 4 720 59904 5 3 1 2
int mpc_main(int INPUT_A_x, int INPUT_B_y) { int a[3] = {0}; return 0; }
@@ ok 4 768 61440 5 3 1 2
int mpc_main(int INPUT_A_x, int INPUT_B_y) { int a[] = {1,2,3}; return 0; }
@@ Mismatch 1:51
int mpc_main(int INPUT_A_x, int INPUT_B_y) { int a[] = 3; return 0; }
@@ ok 4 736 54272 4 3 1 2
int mpc_main(int INPUT_A_x, int INPUT_B_y) { int a[2] = {{1},{2}}; return 0; }
@@ ok 4 256 8192 3 3 1 2
int mpc_main(int INPUT_A_x, int INPUT_B_y) { int a = {1}; return 0; }
@@ Mismatch 1:52
int mpc_main(int INPUT_A_x, int INPUT_B_y) { int a = {1,2}; return 0; }
@@ Mismatch 1:52
int mpc_main(int INPUT_A_x, int INPUT_B_y) { int a = {{1}}; return 0; }
@@ Mismatch 1:52
int mpc_main(int INPUT_A_x, int INPUT_B_y) { int a = {{0}}; return 0; }
@@ ok 4 976 74240 6 3 1 2
int mpc_main(int INPUT_A_x, int INPUT_B_y) { int a[2][2] = {{1,2},{3}}; return 0; }
@@ Mismatch 1:58
int mpc_main(int INPUT_A_x, int INPUT_B_y) { int a[2][2] = {1,2,3}; return 0; }
@@ ok 4 944 73216 6 3 1 2
int mpc_main(int INPUT_A_x, int INPUT_B_y) { int a[2][2] = {{0},{1}}; return 0; }
@@ ok 4 848 70144 6 3 1 2
int mpc_main(int INPUT_A_x, int INPUT_B_y) { int a[2][2] = {0}; return 0; }
@@ Mismatch 1:58
int mpc_main(int INPUT_A_x, int INPUT_B_y) { int a[2][2] = {(0)}; return 0; }
@@ Mismatch 1:58
int mpc_main(int INPUT_A_x, int INPUT_B_y) { int a[2][2] = {0u}; return 0; }
@@ ok 4 848 70144 6 3 1 2
int mpc_main(int INPUT_A_x, int INPUT_B_y) { int a[2][2] = {00}; return 0; }
@@ ok 4 864 70656 6 3 1 2
int mpc_main(int INPUT_A_x, int INPUT_B_y) { int a[2][2] = {0x0,}; return 0; }
@@ ok 4 1040 76288 6 3 1 2
int mpc_main(int INPUT_A_x, int INPUT_B_y) { struct s {int a; char b[3];} v = {1,{2,3}}; return 0; }
@@ ok 4 944 73216 6 3 1 2
int mpc_main(int INPUT_A_x, int INPUT_B_y) { struct s {int a; char b[3];} v = {0}; return 0; }
@@ Mismatch 1:77
int mpc_main(int INPUT_A_x, int INPUT_B_y) { struct s {int a; char b[3];} v = {1,{2,3,4,5}}; return 0; }
@@ Mismatch 1:77
int mpc_main(int INPUT_A_x, int INPUT_B_y) { struct s {int a; char b[3];} v = {1,2}; return 0; }
@@ ok 4 1280 90112 7 3 1 2
int mpc_main(int INPUT_A_x, int INPUT_B_y) { struct s {int a; struct {char c; short d;} b[2];} v = {1,{{2,3}}}; return 0; }
@@ ok 5 1104 96768 4 4 1 2
int mpc_main(int INPUT_A_x, int INPUT_B_y) { struct s {int a;} v = {1}; struct s w = v; return 0; }
@@ Mismatch 1:66
int mpc_main(int INPUT_A_x, int INPUT_B_y) { struct s {int a;} v = 1; return 0; }
@@ ok 5 672 52224 4 4 1 2
int mpc_main(int INPUT_A_x, int INPUT_B_y) { int x = 5; int *p = &x; return 0; }
@@ ok 4 496 40448 3 3 1 2
int mpc_main(int INPUT_A_x, int INPUT_B_y) { int *p = 0; return 0; }
@@ ok 4 528 41472 3 3 1 2
int mpc_main(int INPUT_A_x, int INPUT_B_y) { int *p = {0}; return 0; }
@@ Mismatch 1:53
int mpc_main(int INPUT_A_x, int INPUT_B_y) { int *p = 1; return 0; }
@@ Mismatch 1:70
int mpc_main(int INPUT_A_x, int INPUT_B_y) { const int x = 1; int *p = &x; return 0; }
@@ ok 5 704 53248 4 4 1 2
int mpc_main(int INPUT_A_x, int INPUT_B_y) { const int x = 1; const int *p = &x; return 0; }
@@ Mismatch 1:65
int mpc_main(int INPUT_A_x, int INPUT_B_y) { const int x = 1; x = 2; return 0; }
@@ ok 4 224 7168 3 3 1 2
int mpc_main(int INPUT_A_x, int INPUT_B_y) { _Bool b = 3; return 0; }
@@ PointerForm 1:61
int mpc_main(int INPUT_A_x, int INPUT_B_y) { int z; _Bool b = &z; return 0; }
@@ PointerForm 1:61
int mpc_main(int INPUT_A_x, int INPUT_B_y) { int z; _Bool b = &z + 1; return 0; }
@@ ok 4 224 7168 3 3 1 2
int mpc_main(int INPUT_A_x, int INPUT_B_y) { char c = 300; return 0; }
@@ Cells 1:50
int mpc_main(int INPUT_A_x, int INPUT_B_y) { int a[65536]; return 0; }
@@ NotConstant 1:52
int mpc_main(int INPUT_A_x, int INPUT_B_y) { int a[65537]; return 0; }
@@ Cells 1:50
int mpc_main(int INPUT_A_x, int INPUT_B_y) { int a[65535]; return 0; }
@@ NotConstant 1:52
int mpc_main(int INPUT_A_x, int INPUT_B_y) { int a[0]; return 0; }
@@ NotConstant 1:52
int mpc_main(int INPUT_A_x, int INPUT_B_y) { int a[-1]; return 0; }
@@ Mismatch 1:54
int mpc_main(int INPUT_A_x, int INPUT_B_y) { int a[2][]; return 0; }
@@ Mismatch 1:51
int mpc_main(int INPUT_A_x, int INPUT_B_y) { int a[]; return 0; }
@@ NotConstant 1:52
int mpc_main(int INPUT_A_x, int INPUT_B_y) { int a[INPUT_A_x]; return 0; }
@@ NotConstant 1:52
int mpc_main(int INPUT_A_x, int INPUT_B_y) { int a[1/0]; return 0; }
@@ ok 4 272 8704 5 3 1 2
int mpc_main(int INPUT_A_x, int INPUT_B_y) { int a[3u]; return 0; }
@@ PointerForm 1:50
int mpc_main(int INPUT_A_x, int INPUT_B_y) { int *p[3]; return 0; }
@@ Twice 1:57
int mpc_main(int INPUT_A_x, int INPUT_B_y) { int v; int v; return 0; }
@@ ok 6 288 9216 4 4 1 2
int mpc_main(int INPUT_A_x, int INPUT_B_y) { int v; { int v; } return 0; }
@@ Unknown 1:52
int mpc_main(int INPUT_A_x, int INPUT_B_y) { int a[v]; return 0; }
@@ ok 4 224 7168 3 3 1 2
int mpc_main(int INPUT_A_x, int INPUT_B_y) { int b = b; return 0; }
@@ ok 4 256 9728 3 3 1 2
int mpc_main(int INPUT_A_x, int INPUT_B_y) { unsigned char u = -1; return 0; }
@@ ok 4 256 9728 3 3 1 2
int mpc_main(int INPUT_A_x, int INPUT_B_y) { long l = 1u - 2; return 0; }
@@ Unknown 1:58
int mpc_main(int INPUT_A_x, int INPUT_B_y) { int a[2] = {zz, 1}; return 0; }
@@ Unknown 1:60
int mpc_main(int INPUT_A_x, int INPUT_B_y) { int a[1] = {1,zz}; return 0; }
@@ Unknown 1:54
int mpc_main(int INPUT_A_x, int INPUT_B_y) { int a = zz; return 0; }
@@ ok 5 1216 112640 5 4 1 2
int mpc_main(int INPUT_A_x, int INPUT_B_y) { int g[2] = {1,2}, *p = g; return 0; }
@@ Mismatch 1:63
int mpc_main(int INPUT_A_x, int INPUT_B_y) { int g[2]; int *p = &g; return 0; }
@@ ok 5 816 62976 5 4 1 2
int mpc_main(int INPUT_A_x, int INPUT_B_y) { int g[2]; int *p = &g[1]; return 0; }
@@ ok 5 720 53760 4 4 1 2
int mpc_main(int INPUT_A_x, int INPUT_B_y) { struct t {int q;} s1, *sp = &s1; return 0; }
@@ Mismatch 1:89
int mpc_main(int INPUT_A_x, int INPUT_B_y) { struct t {int q;} s1; struct u {int q;} s2 = s1; return 0; }
@@ ok 4 368 11776 3 3 1 2
int mpc_main(int INPUT_A_x, int INPUT_B_y) { enum {A,B=5,C} e = C; return 0; }
@@ NotConstant 1:65
int mpc_main(int INPUT_A_x, int INPUT_B_y) { enum {A=2147483647,B} e; return 0; }
@@ Twice 1:56
int mpc_main(int INPUT_A_x, int INPUT_B_y) { enum {A=1,A} e; return 0; }
@@ Twice 1:59
int mpc_main(int INPUT_A_x, int INPUT_B_y) { int A; enum {A} e; return 0; }
@@ Twice 1:63
int mpc_main(int INPUT_A_x, int INPUT_B_y) { enum q {A}; enum q {B}; return 0; }
@@ Twice 1:70
int mpc_main(int INPUT_A_x, int INPUT_B_y) { struct q {int a;}; enum q {B}; return 0; }
@@ Twice 1:72
int mpc_main(int INPUT_A_x, int INPUT_B_y) { struct q {int a;}; struct q {int b;}; return 0; }
@@ ok 4 336 10752 3 3 1 2
int mpc_main(int INPUT_A_x, int INPUT_B_y) { struct q; struct q {int b;} v; return 0; }
@@ Unknown 1:63
int mpc_main(int INPUT_A_x, int INPUT_B_y) { struct q; struct q v; return 0; }
@@ Unknown 1:53
int mpc_main(int INPUT_A_x, int INPUT_B_y) { struct q *p; return 0; }
@@ Unknown 1:70
int mpc_main(int INPUT_A_x, int INPUT_B_y) { struct q {int a; struct q b;}; return 0; }
@@ Twice 1:67
int mpc_main(int INPUT_A_x, int INPUT_B_y) { struct q {int a; int a;}; return 0; }
@@ Mismatch 1:56
int mpc_main(int INPUT_A_x, int INPUT_B_y) { struct q {const int a;}; return 0; }
@@ Mismatch 1:56
int mpc_main(int INPUT_A_x, int INPUT_B_y) { struct q {void a;}; return 0; }
@@ Mismatch 1:46
int mpc_main(int INPUT_A_x, int INPUT_B_y) { void v; return 0; }
@@ Cells 1:72
int mpc_main(int INPUT_A_x, int INPUT_B_y) { struct {int a[65536]; int b;} v; return 0; }
@@ Unknown 1:51
int mpc_main(int INPUT_A_x, int INPUT_B_y) { enum zz v; return 0; }
@@ Unknown 1:53
int mpc_main(int INPUT_A_x, int INPUT_B_y) { struct zz v; return 0; }
@@ Mismatch 1:54
int mpc_main(int INPUT_A_x, int INPUT_B_y) { int x = (struct {int a;}) 1; return 0; }
@@ ok 3 144 4608 3 3 1 2
int a = 1; int mpc_main(int INPUT_A_x, int INPUT_B_y) {  return 0; }
@@ NotConstant 1:9
int a = 1/0; int mpc_main(int INPUT_A_x, int INPUT_B_y) {  return 0; }
@@ NotConstant 1:9
int a = 2147483647 + 1; int mpc_main(int INPUT_A_x, int INPUT_B_y) {  return 0; }
@@ Unknown 1:9
int a = b; int mpc_main(int INPUT_A_x, int INPUT_B_y) {  return 0; }
@@ NotConstant 1:16
int b; int a = b; int mpc_main(int INPUT_A_x, int INPUT_B_y) {  return 0; }
@@ NotConstant 1:26
const int b = 1; int a = b; int mpc_main(int INPUT_A_x, int INPUT_B_y) {  return 0; }
@@ NotConstant 1:16
int a[2] = {1, 1/0}; int mpc_main(int INPUT_A_x, int INPUT_B_y) {  return 0; }
@@ ok 3 144 4608 3 3 1 2
int *p = 0; int mpc_main(int INPUT_A_x, int INPUT_B_y) {  return 0; }
@@ NotConstant 1:17
int x; int *p = &x; int mpc_main(int INPUT_A_x, int INPUT_B_y) {  return 0; }
@@ Mismatch 1:8
int *p = 1; int mpc_main(int INPUT_A_x, int INPUT_B_y) {  return 0; }
@@ ok 3 192 6144 6 4 1 2
int a[] = {1,2}; int b[2]; int mpc_main(int INPUT_A_x, int INPUT_B_y) {  return 0; }
@@ ok 3 144 4608 3 3 1 2
static int q = 5; int mpc_main(int INPUT_A_x, int INPUT_B_y) {  return 0; }
@@ ok 3 176 5632 5 3 1 2
typedef int T[3]; T a = {1,2,3}; int mpc_main(int INPUT_A_x, int INPUT_B_y) {  return 0; }
@@ Mismatch 1:19
typedef int T[3]; T f(void) { return 0; } int mpc_main(int INPUT_A_x, int INPUT_B_y) {  return 0; }
@@ ok 3 144 4608 3 3 1 2
typedef const int T; T a = 1; int mpc_main(int INPUT_A_x, int INPUT_B_y) {  return 0; }
@@ Cells 1:35
typedef int T[65536]; typedef int U[65536][2]; int mpc_main(int INPUT_A_x, int INPUT_B_y) {  return 0; }
@@ Mismatch 1:9
typedef void V; int mpc_main(int INPUT_A_x, int INPUT_B_y) {  return 0; }
@@ Twice 1:31
int f(void) { return 1; } int f(void) { return 1; } int mpc_main(int INPUT_A_x, int INPUT_B_y) {  return 0; }
@@ Recursion 1:22
int f(void) { return f(); } int mpc_main(int INPUT_A_x, int INPUT_B_y) {  return 0; }
@@ Mismatch 1:50
int f(int a) { return a; } int g(void) { return f(); } int mpc_main(int INPUT_A_x, int INPUT_B_y) {  return 0; }
@@ Mismatch 1:50
int f(int a) { return a; } int g(void) { return f(1, 2); } int mpc_main(int INPUT_A_x, int INPUT_B_y) {  return 0; }
@@ ok 3 160 5120 4 4 3 2
int f(int *a) { return *a; } int g(void) { int z = 0; return f(&z); } int mpc_main(int INPUT_A_x, int INPUT_B_y) {  return 0; }
@@ ok 3 176 5632 5 4 3 2
int f(int a[]) { return a[0]; } int g(void) { int z[2]; return f(z); } int mpc_main(int INPUT_A_x, int INPUT_B_y) {  return 0; }
@@ ok 3 144 4608 3 3 3 2
int f(int a[3]) { return a[0]; } int g(void) { return f(0); } int mpc_main(int INPUT_A_x, int INPUT_B_y) {  return 0; }
@@ ok 3 144 4608 3 3 2 2
int f(int a[3][2]) { return a[0][1]; } int mpc_main(int INPUT_A_x, int INPUT_B_y) {  return 0; }
@@ ok 3 144 4608 3 3 2 2
int f(int a[][2]) { return a[0][1]; } int mpc_main(int INPUT_A_x, int INPUT_B_y) {  return 0; }
@@ Mismatch 1:14
int f(int a[][]) { return 0; } int mpc_main(int INPUT_A_x, int INPUT_B_y) {  return 0; }
@@ Mismatch 1:30
int f(const int a[2]) { a[0] = 1; return 0; } int mpc_main(int INPUT_A_x, int INPUT_B_y) {  return 0; }
@@ Mismatch 1:26
int f(const int *a) { *a = 1; return 0; } int mpc_main(int INPUT_A_x, int INPUT_B_y) {  return 0; }
@@ Mismatch 1:26
int f(int * const a) { a = 0; return 0; } int mpc_main(int INPUT_A_x, int INPUT_B_y) {  return 0; }
@@ Twice 1:18
int f(int a, int a) { return 0; } int mpc_main(int INPUT_A_x, int INPUT_B_y) {  return 0; }
@@ Twice 1:20
int f(int a) { int a; return 0; } int mpc_main(int INPUT_A_x, int INPUT_B_y) {  return 0; }
@@ ok 3 160 5120 4 4 2 2
int f(int a) { { int a; } return 0; } int mpc_main(int INPUT_A_x, int INPUT_B_y) {  return 0; }
@@ ok 3 128 4096 2 2 2 2
void f(void) { return; } int mpc_main(int INPUT_A_x, int INPUT_B_y) {  return 0; }
@@ Mismatch 1:16
void f(void) { return 1; } int mpc_main(int INPUT_A_x, int INPUT_B_y) {  return 0; }
@@ Mismatch 1:15
int f(void) { return; } int mpc_main(int INPUT_A_x, int INPUT_B_y) {  return 0; }
@@ ok 3 128 4096 2 2 2 2
int f(void) { } int mpc_main(int INPUT_A_x, int INPUT_B_y) {  return 0; }
@@ Mismatch 1:32
void f(void) { } int g(void) { return f(); } int mpc_main(int INPUT_A_x, int INPUT_B_y) {  return 0; }
@@ ok 3 128 4096 2 2 3 2
void f(void) { } void g(void) { f(); } int mpc_main(int INPUT_A_x, int INPUT_B_y) {  return 0; }
@@ ok 3 144 4608 3 3 2 2
struct s {int a;}; struct s f(struct s v) { v.a++; return v; } int mpc_main(int INPUT_A_x, int INPUT_B_y) {  return 0; }
@@ Mismatch 1:39
struct s {int a;}; struct s f(void) { return 1; } int mpc_main(int INPUT_A_x, int INPUT_B_y) {  return 0; }
@@ Mismatch 1:7
int f(void a) { return 0; } int mpc_main(int INPUT_A_x, int INPUT_B_y) {  return 0; }
@@ PointerForm 1:11
int f(int *p[2]) { return 0; } int mpc_main(int INPUT_A_x, int INPUT_B_y) {  return 0; }
@@ ok 3 144 4608 3 3 2 2
int f(unsigned char p[65536]) { return 0; } int mpc_main(int INPUT_A_x, int INPUT_B_y) {  return 0; }
@@ NotConstant 1:23
int f(unsigned char p[65537]) { return 0; } int mpc_main(int INPUT_A_x, int INPUT_B_y) {  return 0; }
@@ ok 3 144 4608 3 3 2 2
int f(unsigned char p[2][65536]) { return 0; } int mpc_main(int INPUT_A_x, int INPUT_B_y) {  return 0; }
@@ Cells 1:21
int f(unsigned char p[][65536][2]) { return 0; } int mpc_main(int INPUT_A_x, int INPUT_B_y) {  return 0; }
@@ Twice 1:17
enum {A}; enum {A}; int mpc_main(int INPUT_A_x, int INPUT_B_y) {  return 0; }
@@ ok 3 144 4608 3 3 1 2
struct s; struct s; struct s {int a;}; struct s v; int mpc_main(int INPUT_A_x, int INPUT_B_y) {  return 0; }
@@ Unknown 1:30
int mpc_main2(void) { return mpc_main(1, 2); } int mpc_main(int INPUT_A_x, int INPUT_B_y) {  return 0; }
@@ ok 3 128 4096 2 2 2 2
const int f(void) { return 1; } int mpc_main(int INPUT_A_x, int INPUT_B_y) {  return 0; }
@@ ok 3 144 4608 3 3 2 2
int g; int f(void) { g = 1; return g; } int mpc_main(int INPUT_A_x, int INPUT_B_y) {  return 0; }
@@ ok 3 224 7168 8 6 1 2
char g[3] = {1,2}; unsigned short h = 70000; _Bool b = 7; long long q = -1; int mpc_main(int INPUT_A_x, int INPUT_B_y) {  return 0; }
@@ Mismatch 1:46
int mpc_main(int INPUT_A_x, int INPUT_B_y) { break; return 0; }
@@ Mismatch 1:46
int mpc_main(int INPUT_A_x, int INPUT_B_y) { continue; return 0; }
@@ NoBound 1:46
int mpc_main(int INPUT_A_x, int INPUT_B_y) { while (1) break; return 0; }
@@ bound 3: ok 10 480 15360 2 2 1 2
int mpc_main(int INPUT_A_x, int INPUT_B_y) { while (1) break; return 0; }
@@ NoBound 1:46
int mpc_main(int INPUT_A_x, int INPUT_B_y) { while (1) continue; return 0; }
@@ bound 3: ok 10 480 15360 2 2 1 2
int mpc_main(int INPUT_A_x, int INPUT_B_y) { while (1) continue; return 0; }
@@ ok 5 352 11264 2 2 1 2
int mpc_main(int INPUT_A_x, int INPUT_B_y) { switch (1) { case 1: break; } return 0; }
@@ Mismatch 1:67
int mpc_main(int INPUT_A_x, int INPUT_B_y) { switch (1) { case 1: continue; } return 0; }
@@ NoBound 1:46
int mpc_main(int INPUT_A_x, int INPUT_B_y) { while (INPUT_A_x) { switch (INPUT_B_y) { case 1: continue; default: break; } } return 0; }
@@ bound 3: ok 19 1344 43008 2 2 1 2
int mpc_main(int INPUT_A_x, int INPUT_B_y) { while (INPUT_A_x) { switch (INPUT_B_y) { case 1: continue; default: break; } } return 0; }
@@ Twice 1:72
int mpc_main(int INPUT_A_x, int INPUT_B_y) { switch (1) { case 1: case 1: break; } return 0; }
@@ Twice 1:79
int mpc_main(int INPUT_A_x, int INPUT_B_y) { switch (1) { case 1: break; case 1+0: break; } return 0; }
@@ Twice 1:75
int mpc_main(int INPUT_A_x, int INPUT_B_y) { switch (1) { default: break; default: break; } return 0; }
@@ NotConstant 1:64
int mpc_main(int INPUT_A_x, int INPUT_B_y) { switch (1) { case INPUT_A_x: break; } return 0; }
@@ ok 6 496 15872 2 2 1 2
int mpc_main(int INPUT_A_x, int INPUT_B_y) { switch ((unsigned char)1) { case 256: break; case 0: break; } return 0; }
@@ Twice 1:81
int mpc_main(int INPUT_A_x, int INPUT_B_y) { switch (1u) { case -1: break; case 4294967295u: break; } return 0; }
@@ Mismatch 1:67
int mpc_main(int INPUT_A_x, int INPUT_B_y) { struct s {int a;} v; switch (v) { case 1: break; } return 0; }
@@ Mismatch 1:54
int mpc_main(int INPUT_A_x, int INPUT_B_y) { int *p; switch (p) { case 1: break; } return 0; }
@@ ok 7 544 18944 2 2 1 2
int mpc_main(int INPUT_A_x, int INPUT_B_y) { switch (INPUT_A_x) { case 1: INPUT_A_x = 2; case 2: default: INPUT_B_y++; break; } return 0; }
@@ Mismatch 1:67
int mpc_main(int INPUT_A_x, int INPUT_B_y) { struct s {int a;} v; if (v) ; return 0; }
@@ ok 6 416 11520 3 3 1 2
int mpc_main(int INPUT_A_x, int INPUT_B_y) { int *p; if (p) ; return 0; }
@@ NoBound 1:58
int mpc_main(int INPUT_A_x, int INPUT_B_y) { int *p = 0; while (p) p++; return 0; }
@@ bound 3: ok 11 2672 252160 3 3 1 2
int mpc_main(int INPUT_A_x, int INPUT_B_y) { int *p = 0; while (p) p++; return 0; }
@@ NoBound 1:46
int mpc_main(int INPUT_A_x, int INPUT_B_y) { do INPUT_A_x--; while (INPUT_A_x); return 0; }
@@ bound 3: ok 10 560 22528 2 2 1 2
int mpc_main(int INPUT_A_x, int INPUT_B_y) { do INPUT_A_x--; while (INPUT_A_x); return 0; }
@@ Mismatch 1:67
int mpc_main(int INPUT_A_x, int INPUT_B_y) { struct s {int a;} v; do ; while (v); return 0; }
@@ Mismatch 1:67
int mpc_main(int INPUT_A_x, int INPUT_B_y) { struct s {int a;} v; while (v) ; return 0; }
@@ Mismatch 1:67
int mpc_main(int INPUT_A_x, int INPUT_B_y) { struct s {int a;} v; for (;v;) ; return 0; }
@@ NoBound 1:46
int mpc_main(int INPUT_A_x, int INPUT_B_y) { for (;;) break; return 0; }
@@ bound 3: ok 10 448 14336 2 2 1 2
int mpc_main(int INPUT_A_x, int INPUT_B_y) { for (;;) break; return 0; }
@@ ok 14 960 46080 3 3 1 2
int mpc_main(int INPUT_A_x, int INPUT_B_y) { for (int i = 0; i < 3; i++) INPUT_A_x += i; return 0; }
@@ ok 17 1168 57344 3 3 1 2
int mpc_main(int INPUT_A_x, int INPUT_B_y) { for (int i = 0; i <= 3; i++) INPUT_A_x += i; return 0; }
@@ ok 14 1008 47616 3 3 1 2
int mpc_main(int INPUT_A_x, int INPUT_B_y) { for (int i = 9; i > 3; i -= 2) INPUT_A_x += i; return 0; }
@@ ok 26 1792 91136 3 3 1 2
int mpc_main(int INPUT_A_x, int INPUT_B_y) { for (int i = 9; i >= 3; i--) INPUT_A_x += i; return 0; }
@@ ok 35 2096 83840 3 3 1 2
int mpc_main(int INPUT_A_x, int INPUT_B_y) { for (int i = 0; i != 30; i += 3) ; return 0; }
@@ NoBound 1:46
int mpc_main(int INPUT_A_x, int INPUT_B_y) { for (int i = 0; i == 0; i++) ; return 0; }
@@ bound 3: ok 14 816 31232 3 3 1 2
int mpc_main(int INPUT_A_x, int INPUT_B_y) { for (int i = 0; i == 0; i++) ; return 0; }
@@ ok 14 816 36864 3 3 1 2
int mpc_main(int INPUT_A_x, int INPUT_B_y) { for (int i = 0; 3 > i; i++) ; return 0; }
@@ ok 14 1040 44032 3 3 1 2
int mpc_main(int INPUT_A_x, int INPUT_B_y) { for (int i = 0; (i) < 3; (i)++) ; return 0; }
@@ NoBound 1:46
int mpc_main(int INPUT_A_x, int INPUT_B_y) { for (int i = 0; (int)i < 3; i++) ; return 0; }
@@ bound 3: ok 14 1008 43008 3 3 1 2
int mpc_main(int INPUT_A_x, int INPUT_B_y) { for (int i = 0; (int)i < 3; i++) ; return 0; }
@@ NoBound 1:46
int mpc_main(int INPUT_A_x, int INPUT_B_y) { for (unsigned char i = 0; i < 300; i++) ; return 0; }
@@ bound 3: ok 14 832 37376 3 3 1 2
int mpc_main(int INPUT_A_x, int INPUT_B_y) { for (unsigned char i = 0; i < 300; i++) ; return 0; }
@@ ok 32 1792 72448 3 3 1 2
int mpc_main(int INPUT_A_x, int INPUT_B_y) { for (unsigned char i = 250; i != 3; i++) ; return 0; }
@@ ok 15 848 37888 3 3 1 2
int mpc_main(int INPUT_A_x, int INPUT_B_y) { int i; for (i = 0; i < 3; i++) ; return 0; }
@@ NoBound 1:53
int mpc_main(int INPUT_A_x, int INPUT_B_y) { int i; for (i = 0; i < 3; i = i + 1) ; return 0; }
@@ bound 3: ok 15 992 42496 3 3 1 2
int mpc_main(int INPUT_A_x, int INPUT_B_y) { int i; for (i = 0; i < 3; i = i + 1) ; return 0; }
@@ NoBound 1:46
int mpc_main(int INPUT_A_x, int INPUT_B_y) { for (int i = 0; i < 3; ++i) i = 1; return 0; }
@@ bound 3: ok 14 960 41472 3 3 1 2
int mpc_main(int INPUT_A_x, int INPUT_B_y) { for (int i = 0; i < 3; ++i) i = 1; return 0; }
@@ NoBound 1:46
int mpc_main(int INPUT_A_x, int INPUT_B_y) { for (int i = 0; i < 3; ++i) { int *p = &i; } return 0; }
@@ bound 3: ok 17 2464 175040 4 4 1 2
int mpc_main(int INPUT_A_x, int INPUT_B_y) { for (int i = 0; i < 3; ++i) { int *p = &i; } return 0; }
@@ NoBound 1:66
int mpc_main(int INPUT_A_x, int INPUT_B_y) { int i; int *p = &i; for (i = 0; i < 3; ++i) ; return 0; }
@@ bound 3: ok 16 1584 85440 4 4 1 2
int mpc_main(int INPUT_A_x, int INPUT_B_y) { int i; int *p = &i; for (i = 0; i < 3; ++i) ; return 0; }
@@ ok 17 1808 97408 5 5 1 2
int mpc_main(int INPUT_A_x, int INPUT_B_y) { for (int i = 0; i < 3; ++i) ; { int i; int *p = &i; } return 0; }
@@ NoBound 1:46
int mpc_main(int INPUT_A_x, int INPUT_B_y) { for (int i = 0, j = 5; i < j; ++i) ; return 0; }
@@ bound 3: ok 15 944 40960 4 4 1 2
int mpc_main(int INPUT_A_x, int INPUT_B_y) { for (int i = 0, j = 5; i < j; ++i) ; return 0; }
@@ ok 18 1248 59904 4 4 1 2
int mpc_main(int INPUT_A_x, int INPUT_B_y) { for (int i = 0, j = 5; i < 4; ++i) j--; return 0; }
@@ NoBound 1:46
int mpc_main(int INPUT_A_x, int INPUT_B_y) { for (int i = INPUT_A_x; i < 4; ++i) ; return 0; }
@@ bound 3: ok 14 816 36864 3 3 1 2
int mpc_main(int INPUT_A_x, int INPUT_B_y) { for (int i = INPUT_A_x; i < 4; ++i) ; return 0; }
@@ NoBound 1:46
int mpc_main(int INPUT_A_x, int INPUT_B_y) { for (int i = 0; i < INPUT_A_x; ++i) ; return 0; }
@@ bound 3: ok 14 816 36864 3 3 1 2
int mpc_main(int INPUT_A_x, int INPUT_B_y) { for (int i = 0; i < INPUT_A_x; ++i) ; return 0; }
@@ NoBound 1:46
int mpc_main(int INPUT_A_x, int INPUT_B_y) { for (int i = 0; i < 3; INPUT_A_x++) ; return 0; }
@@ bound 3: ok 14 816 36864 3 3 1 2
int mpc_main(int INPUT_A_x, int INPUT_B_y) { for (int i = 0; i < 3; INPUT_A_x++) ; return 0; }
@@ ok 14 736 34304 2 2 1 2
int mpc_main(int INPUT_A_x, int INPUT_B_y) { for (INPUT_A_x = 0; INPUT_A_x < 3; INPUT_A_x++) ; return 0; }
@@ NoBound 1:46
int mpc_main(int INPUT_A_x, int INPUT_B_y) { for (int i = 0; i < 1048577; ++i) ; return 0; }
@@ bound 3: ok 14 816 36864 3 3 1 2
int mpc_main(int INPUT_A_x, int INPUT_B_y) { for (int i = 0; i < 1048577; ++i) ; return 0; }
@@ ok 2865 217712 10503040 4 4 1 2
int mpc_main(int INPUT_A_x, int INPUT_B_y) { for (long i = 0; i < 1000; i += 7) { for (int j = 0; j < 5; j++) INPUT_A_x ^= j; } return 0; }
@@ ok 14 848 37888 3 3 1 2
int mpc_main(int INPUT_A_x, int INPUT_B_y) { for (int i = {0}; i < 3; ++i) ; return 0; }
@@ NoBound 1:46
int mpc_main(int INPUT_A_x, int INPUT_B_y) { for (int i[1] = {0}; i[0] < 3; ++i[0]) ; return 0; }
@@ bound 3: ok 14 1488 82944 3 3 1 2
int mpc_main(int INPUT_A_x, int INPUT_B_y) { for (int i[1] = {0}; i[0] < 3; ++i[0]) ; return 0; }
@@ NoBound 1:74
int mpc_main(int INPUT_A_x, int INPUT_B_y) { for (int i = 0; i < 3; ++i) while (1) { i++; break; } return 0; }
@@ bound 3: ok 50 2688 110592 3 3 1 2
int mpc_main(int INPUT_A_x, int INPUT_B_y) { for (int i = 0; i < 3; ++i) while (1) { i++; break; } return 0; }
@@ NoBound 1:46
int mpc_main(int INPUT_A_x, int INPUT_B_y) { for (int i = 0; i < 3; ++i) for (i = 1; i < 2; i++) ; return 0; }
@@ bound 3: ok 26 1776 81408 3 3 1 2
int mpc_main(int INPUT_A_x, int INPUT_B_y) { for (int i = 0; i < 3; ++i) for (i = 1; i < 2; i++) ; return 0; }
@@ ok 4 192 6144 2 2 1 2
int mpc_main(int INPUT_A_x, int INPUT_B_y) { INPUT_A_x = 1; return 0; }
@@ Mismatch 1:48
int mpc_main(int INPUT_A_x, int INPUT_B_y) { 1 = 2; return 0; }
@@ Unknown 1:59
int mpc_main(int INPUT_A_x, int INPUT_B_y) { INPUT_A_x += zz; return 0; }
@@ Unknown 1:46
int mpc_main(int INPUT_A_x, int INPUT_B_y) { zz += 1; return 0; }
@@ Mismatch 1:47
int mpc_main(int INPUT_A_x, int INPUT_B_y) { 5++; return 0; }
@@ ok 5 224 10240 2 2 1 2
int mpc_main(int INPUT_A_x, int INPUT_B_y) { INPUT_A_x++ ; ++INPUT_B_y; return 0; }
@@ ok 8 2768 309760 3 3 1 2
int mpc_main(int INPUT_A_x, int INPUT_B_y) { int *p = 0; p += 1; p -= 1; p++; --p; return 0; }
@@ PointerForm 1:68
int mpc_main(int INPUT_A_x, int INPUT_B_y) { int *p = 0, *q = 0; p -= q; return 0; }
@@ Mismatch 1:60
int mpc_main(int INPUT_A_x, int INPUT_B_y) { int *p = 0; p *= 2; return 0; }
@@ Mismatch 1:60
int mpc_main(int INPUT_A_x, int INPUT_B_y) { int *p = 0; p += p; return 0; }
@@ Mismatch 1:69
int mpc_main(int INPUT_A_x, int INPUT_B_y) { struct s {int a;} v; v += 1; return 0; }
@@ Mismatch 1:68
int mpc_main(int INPUT_A_x, int INPUT_B_y) { struct s {int a;} v; v++; return 0; }
@@ Mismatch 1:64
int mpc_main(int INPUT_A_x, int INPUT_B_y) { const int c = 1; c++; return 0; }
@@ ok 10 608 72320 3 3 1 2
int mpc_main(int INPUT_A_x, int INPUT_B_y) { char c = 1; c <<= 3; c >>= 40; c %= 3; c |= 1; c &= 2; c ^= 3; return 0; }
@@ ok 6 336 13824 3 3 1 2
int mpc_main(int INPUT_A_x, int INPUT_B_y) { _Bool b = 1; b += 3; b++; return 0; }
@@ Mismatch 1:54
int mpc_main(int INPUT_A_x, int INPUT_B_y) { int f; f(); return 0; }
@@ Mismatch 1:55
int mpc_main(int INPUT_A_x, int INPUT_B_y) { INPUT_A_x(); return 0; }
@@ Recursion 1:46
int mpc_main(int INPUT_A_x, int INPUT_B_y) { mpc_main(1,2); return 0; }
@@ Unknown 1:46
int mpc_main(int INPUT_A_x, int INPUT_B_y) { zz(); return 0; }
@@ Mismatch 1:58
int mpc_main(int INPUT_A_x, int INPUT_B_y) { int a[2]; a = 0; return 0; }
@@ ok 6 784 57344 4 3 1 2
int mpc_main(int INPUT_A_x, int INPUT_B_y) { int a[2]; a[0] = 1; a[INPUT_A_x]++; return 0; }
@@ Unknown 1:61
int mpc_main(int INPUT_A_x, int INPUT_B_y) { { int q = 1; } q = 2; return 0; }
@@ ok 8 448 17408 4 4 1 2
int mpc_main(int INPUT_A_x, int INPUT_B_y) { int q = 1; { int q = 2; q++; } q++; return 0; }
@@ Unknown 1:76
int mpc_main(int INPUT_A_x, int INPUT_B_y) { for (int q = 0; q < 2; q++) ; q++; return 0; }
@@ ok 8 480 15360 4 4 1 2
int mpc_main(int INPUT_A_x, int INPUT_B_y) { if (1) { int q; } else { int q; } return 0; }
@@ ok 8 768 24576 4 4 1 2
int mpc_main(int INPUT_A_x, int INPUT_B_y) { struct s {int a;}; { struct s {char b;}; struct s v; v.b = 1; } struct s w; w.a = 1; return 0; }
@@ Unknown 1:86
int mpc_main(int INPUT_A_x, int INPUT_B_y) { struct t; { struct t {int a;}; } struct t v; return 0; }
@@ ok 4 176 5632 2 2 1 2
int mpc_main(int INPUT_A_x, int INPUT_B_y) { return 1; return 0; }
@@ Unknown 1:53
int mpc_main(int INPUT_A_x, int INPUT_B_y) { return zz; return 0; }
@@ ok 4 240 7680 2 2 1 2
int mpc_main(int INPUT_A_x, int INPUT_B_y) { return INPUT_A_x ? 1 : 2u; return 0; }
@@ Mismatch 1:54
int mpc_main(int INPUT_A_x, int INPUT_B_y) { int *p; return p; return 0; }
@@ Mismatch 1:67
int mpc_main(int INPUT_A_x, int INPUT_B_y) { struct s {int a;} v; return v; return 0; }
@@ ok 6 176 5632 2 2 1 2
int mpc_main(int INPUT_A_x, int INPUT_B_y) { ;;; return 0; }
@@ ok 4 160 5120 2 2 1 2
int mpc_main(int INPUT_A_x, int INPUT_B_y) { {} return 0; }
@@ ok 6 208 6656 2 2 1 2
int mpc_main(int INPUT_A_x, int INPUT_B_y) { { ; { } } return 0; }
@@ ok 8 1680 148992 4 4 1 2
int mpc_main(int INPUT_A_x, int INPUT_B_y) { struct s {int a;} v, *p = &v; p->a = 1; v.a++; (*p).a -= 2; return 0; }
@@ Unknown 1:84
int mpc_main(int INPUT_A_x, int INPUT_B_y) { struct s {int a[3];} v; v.a[1] = 2; v.b = 1; return 0; }
@@ NoBound 1:46
int mpc_main(int INPUT_A_x, int INPUT_B_y) { do { break; } while (1); return 0; }
@@ bound 3: ok 13 608 19456 2 2 1 2
int mpc_main(int INPUT_A_x, int INPUT_B_y) { do { break; } while (1); return 0; }
@@ NoBound 1:46
int mpc_main(int INPUT_A_x, int INPUT_B_y) { while (1) { if (INPUT_A_x) continue; INPUT_B_y--; } return 0; }
@@ bound 3: ok 19 1056 38400 2 2 1 2
int mpc_main(int INPUT_A_x, int INPUT_B_y) { while (1) { if (INPUT_A_x) continue; INPUT_B_y--; } return 0; }
@@ ok 14 768 32256 2 2 1 2
int mpc_main(int INPUT_A_x, int INPUT_B_y) { 
#pragma bound 5
while (INPUT_A_x) INPUT_A_x--; return 0; }
@@ ok 4 240 7680 2 2 1 2
int mpc_main(int INPUT_A_x, int INPUT_B_y) { 
#pragma bound 0
do ; while (1); return 0; }
@@ ok 11 672 29184 3 3 1 2
int mpc_main(int INPUT_A_x, int INPUT_B_y) { 
#pragma bound 2
for (int i = 0; i < 3; i++) ; return 0; }
@@ ok 14 832 37376 3 3 1 2
int mpc_main(int INPUT_A_x, int INPUT_B_y) { 
#pragma bound 3
for (int i = 0; i < 3; i++) ; return 0; }
@@ Unroll 1:5
int mpc_main(int INPUT_A_x, int INPUT_B_y) { 
#pragma bound 1000
while (1) { 
#pragma bound 1000
while (1) { 
#pragma bound 1000
while(1) ; } } return 0; }
@@ NoEntry 1:1

@@ NoEntry 1:26
int f(void) { return 1; }
@@ NoEntry 1:6
void mpc_main(int INPUT_A_x) { }
@@ ok 3 96 3072 0 0 1 0
int mpc_main(void) { return 1; }
@@ ok 3 96 3072 0 0 1 0
int mpc_main() { return 1; }
@@ NoEntry 1:18
int mpc_main(int x) { return 1; }
@@ ok 3 112 3584 1 1 1 1
int mpc_main(int INPUT_A) { return 1; }
@@ ok 3 112 3584 1 1 1 1
int mpc_main(int INPUT_Ax) { return 1; }
@@ NoEntry 1:18
int mpc_main(int INPUT_C_x) { return 1; }
@@ NoEntry 1:19
int mpc_main(int *INPUT_A_x) { return 1; }
@@ NoEntry 1:18
int mpc_main(int INPUT_A_x[]) { return 1; }
@@ ok 3 192 6144 3 2 1 1
int mpc_main(int INPUT_A_x[2]) { return INPUT_A_x[1]; }
@@ Mismatch 1:53
int mpc_main(const int INPUT_A_x[2]) { INPUT_A_x[1] = 1; return 1; }
@@ ok 3 352 12800 8 3 1 2
int mpc_main(int INPUT_A_x[2][3], char INPUT_B_y) { return INPUT_A_x[1][2] + INPUT_B_y; }
@@ ok 3 400 37376 3 1 1 1
struct s {int a; char b[2];}; struct s mpc_main(struct s INPUT_A_x) { return INPUT_A_x; }
@@ ok 3 304 9728 10 4 1 2
typedef int T[4]; int mpc_main(T INPUT_A_x, T INPUT_B_y) { return INPUT_A_x[1]; }
@@ NoEntry 1:34
typedef int T[4]; int mpc_main(T INPUT_A_x[]) { return 1; }
@@ ok 3 1048672 33557504 65536 2 1 1
int mpc_main(char INPUT_A_x[65535]) { return 1; }
@@ Cells 1:19
int mpc_main(char INPUT_A_x[65536]) { return 1; }
@@ Cells 1:19
int mpc_main(char INPUT_A_x[65536], char INPUT_B_y[2]) { return 1; }
@@ Cells 1:19
int mpc_main(char INPUT_A_x[2][65536]) { return 1; }
@@ Twice 1:33
int mpc_main(int INPUT_A_x, int INPUT_A_x) { return 1; }
@@ Recursion 1:64
int mpc_main(int INPUT_A_x) { return 1; } int f(void) { return mpc_main(1); }
@@ ok 3 128 4096 2 2 2 1
int mpc_main(int INPUT_A_x) { return 1; } int g; int f(void) { return g; } 
@@ Recursion 1:38
int mpc_main(int INPUT_A_x) { return mpc_main(1); }
@@ Mismatch 1:19
typedef int T[2]; T mpc_main(int INPUT_A_x) { return 1; }
@@ ok 3 112 3584 1 1 1 1
enum e {A,B}; enum e mpc_main(enum e INPUT_A_x) { return B; }
@@ ok 3 160 5120 2 2 1 2
_Bool mpc_main(_Bool INPUT_A_x, unsigned long INPUT_B_y) { return INPUT_A_x && INPUT_B_y; }
@@ ok 3 336 10752 7 2 1 1
int mpc_main(struct {int a; int b[2];} INPUT_A_x[2]) { return INPUT_A_x[1].b[1]; }
@@ NoEntry 1:18
int mpc_main(int x, int *INPUT_A_y) { return 1; }
@@ Unroll 1:5
int mpc_main(int INPUT_A_x) { for (int i = 0; i < 1000; i++) for (int j = 0; j < 1000; j++) for (int k = 0; k < 9; k++) ; return 1; }"#;
