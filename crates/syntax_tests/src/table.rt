//! Short texts, each with its tree in print or its first fault, by hand from the grammar.
//!
//! A line each: words, split at spaces, and after ` => ` the tree of what they spell; or the kind of their fault with
//! the number of the faulty word, counted from 1, and of a construct its word. The words of what stands after the rows are
//! numbered too. A number after a `#` is the bound of a loop. `T` is the name of a type.
//!
//! A line that begins with `@` is the head of a section: the words before and after each text of it, which a `|` parts,
//! and after another `@` what stands before and after its tree in print: expressions, parts of a block, and whole
//! programs. In the last section texts stand as they are written, with a `$` for each end of a line, and a fault with its
//! line and its column.

/// How many texts there are.
pub const COUNT: u32 = 600;

/// The texts.
pub const TABLE: &str =
    r###"@typedef int T ; int f ( ) { return|; }@typedef Int T;Int f(){return |;}
a => a
7 => 7
'a' => '97'
true => true
false => false
( a ) => (a)
f ( ) => f()
f ( a ) => f(a)
f ( a , b + 1 , g ( ) ) => f(a,<b Add 1>,g())
a [ 1 ] => a[1]
a . b => a.b
a -> b => a->b
a [ i ] . b -> c [ 2 ] => a[i].b->c[2]
( a ) [ 1 ] => (a)[1]
f ( ) . b => f().b
1 [ a ] => 1[a]
- a => Minus{a}
+ - ~ ! * & a => Plus{Minus{Complement{Not{Indirection{Address{a}}}}}}
- a [ 1 ] => Minus{a[1]}
& a . b => Address{a.b}
( int ) a => (Int){a}
( int ) - a . b => (Int){Minus{a.b}}
( int ) ( unsigned ) a => (Int){(Unsigned){a}}
( void ) a => (Void){a}
( T ) ( a ) => (T){(a)}
( struct s ) a => (struct s){a}
( struct { int a ; } ) b => (struct{Int a;}){b}
( enum { a } ) b => (enum{a}){b}
( const unsigned char const ) a => (const Unsigned Char const){a}
( long long int unsigned ) a => (Long Long Int Unsigned){a}
( long int long ) a => (Long Int Long){a}
( char signed ) a => (Char Signed){a}
( int short signed ) a => (Int Short Signed){a}
( _Bool ) ( bool ) a => (Underscored){(Bool){a}}
( int8_t ) ( int16_t ) ( int32_t ) ( int64_t ) a => (Int8){(Int16){(Int32){(Int64){a}}}}
( uint8_t ) ( uint16_t ) ( uint32_t ) ( uint64_t ) a => (Uint8){(Uint16){(Uint32){(Uint64){a}}}}
a + b => <a Add b>
a - b + c => <a Subtract b Add c>
a + b * c => <a Add <b Multiply c>>
a * b + c / d % e => <<a Multiply b> Add <c Divide d Remainder e>>
a || b && c | d ^ e & f == g < h << i + j * k => <a LogicalOr <b LogicalAnd <c Or <d Xor <e And <f Equal <g Less <h ShiftLeft <i Add <j Multiply k>>>>>>>>>>
a * b + c << d < e == f & g ^ h | i && j || k => <<<<<<<<<<a Multiply b> Add c> ShiftLeft d> Less e> Equal f> And g> Xor h> Or i> LogicalAnd j> LogicalOr k>
a != b == c => <a Unequal b Equal c>
a <= b >= c > d => <a LessOrEqual b GreaterOrEqual c Greater d>
a >> b << c => <a ShiftRight b ShiftLeft c>
- a * - b => <Minus{a} Multiply Minus{b}>
a - - b => <a Subtract Minus{b}>
a & & b => <a And Address{b}>
a * * b => <a Multiply Indirection{b}>
( a + b ) * c => <(<a Add b>) Multiply c>
( int ) a + b => <(Int){a} Add b>
a ? b : c => <a ? b : c>
a ? b : c ? d : e => <a ? b : <c ? d : e>>
a ? b ? c : d : e => <a ? <b ? c : d> : e>
a || b ? c : d => <<a LogicalOr b> ? c : d>
a ? b : c + d => <a ? b : <c Add d>>
( a ? b : c ) . d => (<a ? b : c>).d
a + => Expected 3
a b => Expected 2
a 1 => Expected 2
+ => Expected 2
( a => Expected 3
( => Expected 2
( ) => Expected 2
f ( => Expected 3
f ( a , => Expected 5
f ( , a ) => Construct 3 ,
f ( a b ) => Expected 4
a [ ] => Expected 3
a [ 1 => Expected 4
a [ 1 , 2 ] => Construct 4 ,
a . 1 => Expected 3
a . ( b ) => Expected 3
a . T => Expected 3
a -> => Expected 3
a -> * => Construct 3 *
a ? => Expected 3
a ? b => Expected 4
a ? b : => Expected 5
a ? : c => Construct 3 :
a : b => Construct 2 :
( int => Expected 3
( int ) => Expected 4
( int a ) b => Expected 3
( int [ ] ) a => Expected 3
( int ( a ) ) b => Expected 3
T => Expected 1
( T => Expected 3
( t ) a => Expected 4
int => Expected 1
f ( ) ( ) => Expected 4
( f ) ( a ) => Expected 4
1 ( ) => Expected 2
a , b => Construct 2 ,
( a , b ) => Construct 3 ,
a = b => Construct 2 =
( a = b ) => Construct 3 =
a ++ => Construct 2 ++
-- a => Construct 1 --
* a ++ => Construct 3 ++
sizeof a => Construct 1 sizeof
"a" => Construct 1 "
a "b" => Construct 2 "
#3 => Expected 1
{ 1 } => Construct 1 {
( int ) { 1 } => Construct 4 {
[ 1 ] => Expected 1
a goto => Construct 2 goto
return => Expected 1
( int int ) a => Expected 3
( unsigned const int ) a => Expected 4
( long long long ) a => Expected 4
( short long ) a => Expected 3
( signed unsigned ) a => Expected 3
( char int ) a => Expected 3
( _Bool int ) a => Expected 3
( uint8_t int ) a => Expected 3
( void void ) a => Expected 3
( int double ) a => Construct 3 double
( const ) a => Expected 3
( int T ) a => Expected 3
( struct ) a => Expected 3
( enum ) a => Expected 3
( int ... ) a => Construct 3 ...
( int , ) a => Construct 3 ,
( int ++ ) a => Construct 3 ++
( int -- ) a => Construct 3 --
( int : ) a => Construct 3 :
( int * ) a => Construct 3 *
( int . ) a => Construct 3 .
( int { ) a => Construct 3 {
( int = ) a => Construct 3 =
( int *= ) a => Construct 3 *=
( int /= ) a => Construct 3 /=
( int %= ) a => Construct 3 %=
( int += ) a => Construct 3 +=
( int -= ) a => Construct 3 -=
( int <<= ) a => Construct 3 <<=
( int >>= ) a => Construct 3 >>=
( int &= ) a => Construct 3 &=
( int ^= ) a => Construct 3 ^=
( int |= ) a => Construct 3 |=
( int -> ) a => Expected 3
( int ? ) a => Expected 3
( int & ) a => Expected 3
( int ; ) a => Expected 3
@typedef int T ; void f ( ) {|}@typedef Int T;Void f(){|}
; => ;
{ } => {}
{ ; } ; => {;};
a = b ; => a Plain b;
a *= 1 ; a /= 1 ; a %= 1 ; => a Multiply 1;a Divide 1;a Remainder 1;
a += 1 ; a -= 1 ; a <<= 1 ; a >>= 1 ; => a Add 1;a Subtract 1;a ShiftLeft 1;a ShiftRight 1;
a &= 1 ; a ^= 1 ; a |= 1 ; => a And 1;a Xor 1;a Or 1;
a ++ ; a -- ; => a Increment;a Decrement;
++ a ; -- a ; => Increment a;Decrement a;
++ - a ; => Increment Minus{a};
f ( ) ; => f();
a . b = 1 ; => a.b Plain 1;
* p = 1 ; => Indirection{p} Plain 1;
- a = 1 ; => Minus{a} Plain 1;
( int ) a = 1 ; => (Int){a} Plain 1;
f ( ) = 1 ; => f() Plain 1;
f ( ) [ 0 ] ++ ; => f()[0] Increment;
( f ( ) ) ++ ; => (f()) Increment;
1 = 1 ; => 1 Plain 1;
break ; continue ; => break;continue;
return ; return a ; => return;return a;
x + 1 ; => Expected 2
x ; => Expected 2
( f ( ) ) ; => Expected 6
f ( ) [ 0 ] ; => Expected 7
- f ( ) ; => Expected 5
* p ++ ; => Construct 3 ++
- x ++ ; => Construct 3 ++
( int ) x ++ ; => Construct 5 ++
++ x = 1 ; => Construct 3 =
++ x ++ ; => Construct 3 ++
++ ++ x ; => Construct 2 ++
++ ; => Expected 2
++ x => Expected 3
x ++ ++ ; => Construct 3 ++
x ++ => Expected 3
x = y = 1 ; => Construct 4 =
x = 1 , y = 2 ; => Construct 4 ,
x , y ; => Construct 2 ,
f ( ) , g ( ) ; => Construct 4 ,
f ( ) => Expected 4
x == 1 ; => Expected 2
x ? y : z ; => Expected 2
x = ; => Expected 3
x = 1 => Expected 4
x = { 1 } ; => Construct 3 {
x = [ 1 ] ; => Expected 3
break => Expected 2
break a ; => Expected 2
continue => Expected 2
continue a ; => Expected 2
return => Expected 2
return a => Expected 3
e : ; => Construct 2 :
case 1 : ; => Expected 1
default : ; => Expected 1
else ; => Expected 1
goto a ; => Construct 1 goto
union u a ; => Construct 1 union
float a ; => Construct 1 float
double a ; => Construct 1 double
volatile int a ; => Construct 1 volatile
restrict a ; => Construct 1 restrict
register int a ; => Construct 1 register
auto int a ; => Construct 1 auto
extern int a ; => Construct 1 extern
sizeof a ; => Construct 1 sizeof
typedef int t ; => Construct 1 typedef
static int a ; => Construct 1 static
inline int f ( ) { } => Construct 1 inline
_Alignas ( 8 ) int a ; => Construct 1 _Alignas
_Alignof ( int ) ; => Construct 1 _Alignof
_Atomic int a ; => Construct 1 _Atomic
_Complex a ; => Construct 1 _Complex
_Generic ( a ) ; => Construct 1 _Generic
_Imaginary a ; => Construct 1 _Imaginary
_Noreturn a ; => Construct 1 _Noreturn
_Static_assert ( 1 ) ; => Construct 1 _Static_assert
_Thread_local int a ; => Construct 1 _Thread_local
"a" ; => Construct 1 "
[ 1 ] ; => Expected 1
if ( a ) ; => if(a)<;>
if ( a ) b = 1 ; else { } => if(a)<b Plain 1;>else<{}>
if ( a ) if ( b ) ; else ; => if(a)<if(b)<;>else<;>>
if ( a ) { if ( b ) ; } else ; => if(a)<{if(b)<;>}>else<;>
if ( a ) if ( b ) ; else ; else ; => if(a)<if(b)<;>else<;>>else<;>
if ( a ) while ( b ) if ( c ) ; else ; => if(a)<while(b)<if(c)<;>else<;>>>
if ( a ) for ( ; ; ) if ( c ) ; else ; else ; => if(a)<for(;;)<if(c)<;>else<;>>>else<;>
if ( a ) ; else if ( b ) ; else ; => if(a)<;>else<if(b)<;>else<;>>
if ( a ) do ; while ( b ) ; else ; => if(a)<do<;>while(b);>else<;>
if ( a ) ; else ; else ; => Expected 8
if a ) ; => Expected 2
if ( ) ; => Expected 3
if ( a ; => Expected 4
if ( a ) => Expected 5
if ( a ) else ; => Expected 5
if ( a ) ; else => Expected 7
if ( a ) int b ; => Expected 5
if ( a ) struct s ; => Expected 5
if ( a ) ; else int b ; => Expected 7
if ( a = b ) ; => Construct 4 =
if ( int a ) ; => Expected 3
if ( a ) [ 1 ] ; => Expected 5
switch ( a ) { } => switch(a){}
switch ( a ) { case 1 : ; } => switch(a){[case 1:;]}
switch ( a ) { case 1 : case 2 : b = 1 ; break ; default : ; } => switch(a){[case 1:case 2:b Plain 1;break;][default:;]}
switch ( a ) { default : ; case a + b ? 1 : 2 : { } } => switch(a){[default:;][case <<a Add b> ? 1 : 2>:{}]}
switch ( a ) { default : default : ; } => switch(a){[default:default:;]}
switch ( a ) { case 1 : switch ( b ) { case 2 : ; } ; } => switch(a){[case 1:switch(b){[case 2:;]};]}
switch ( a ) { case 1 : { int b ; } } => switch(a){[case 1:{Int b;}]}
switch a { } => Expected 2
switch ( ) { } => Expected 3
switch ( a { } => Construct 4 {
switch ( a ) ; => Expected 5
switch ( a ) case 1 : ; => Expected 5
switch ( a ) { ; } => Expected 6
switch ( a ) { int b ; } => Expected 6
switch ( a ) { b : ; } => Expected 6
switch ( a ) { case 1 : } => Expected 9
switch ( a ) { case 1 : int b ; } => Expected 9
switch ( a ) { case 1 : ; int b ; } => Expected 10
switch ( a ) { case : ; } => Construct 7 :
switch ( a ) { case 1 ; } => Expected 8
switch ( a ) { case 1 ... 2 : ; } => Construct 8 ...
switch ( a ) { case 1 : ; case 2 : } => Expected 13
switch ( a ) { default ; } => Expected 7
switch ( a ) { default 1 : ; } => Expected 7
switch ( a ) { case 1 : ; => Expected 11
switch ( a ) { case 1 : if ( b ) case 2 : ; } => Expected 13
while ( a ) ; => while(a)<;>
#3 while ( a ) ; => #3 while(a)<;>
while ( a ) #1 while ( b ) ; => while(a)<#1 while(b)<;>>
do ; while ( a ) ; => do<;>while(a);
#3 do { } while ( a ) ; => #3 do<{}>while(a);
for ( ; ; ) ; => for(;;)<;>
#3 for ( a = 1 ; a < 2 ; a ++ ) { } => #3 for(a Plain 1;<a Less 2>;a Increment)<{}>
for ( int a = 1 , b ; ; f ( ) ) ; => for(Int a=1,b;;f())<;>
for ( f ( ) ; a ; ++ a ) ; => for(f();a;Increment a)<;>
for ( T * p ; ; ) ; => for(T *p;;)<;>
for ( struct s { int a ; } b ; ; ) ; => for(struct s{Int a;} b;;)<;>
while a ) ; => Expected 2
while ( ) ; => Expected 3
while ( a ; => Expected 4
while ( a ) => Expected 5
while ( a ) int b ; => Expected 5
while ( a ) case 1 : ; => Expected 5
do while ( a ) ; => Expected 7
do ; ( a ) ; => Expected 3
do ; while a ; => Expected 4
do ; while ( ) ; => Expected 5
do ; while ( a ; => Expected 6
do ; while ( a ) => Expected 7
do int a ; while ( b ) ; => Expected 2
for ; ; ) ; => Expected 2
for ( ) ; => Expected 3
for ( ; ) ; => Expected 4
for ( ; ; ; ) ; => Expected 5
for ( ; ; => Expected 5
for ( ; ; ) => Expected 6
for ( ; ; ) int a ; => Expected 6
for ( a ; ; ) ; => Expected 4
for ( a + 1 ; ; ) ; => Expected 4
for ( ; ; a ) ; => Expected 6
for ( ; ; int a ) ; => Expected 5
for ( int a ) ; => Expected 5
for ( struct s ; ; ) ; => Expected 5
for ( a = 1 , b = 2 ; ; ) ; => Construct 6 ,
for ( ; ; a ++ , b ++ ) ; => Construct 7 ,
for ( ; a = 1 ; ) ; => Construct 5 =
for ( static int a ; ; ) ; => Construct 3 static
for ( int ( a ) ; ; ) ; => Construct 4 (
for ( int a = [ 1 ] ; ; ) ; => Construct 6 [
#3 ; => Expected 2
#3 a = 1 ; => Expected 2
#3 if ( a ) ; => Expected 2
#3 { } => Construct 2 {
#3 int a ; => Expected 2
#3 #3 while ( a ) ; => Expected 2
#3 => Expected 2
if ( a ) #3 ; => Expected 6
int a ; => Int a;
int a , * b , * const c , d [ 3 ] [ ] = { 1 , { 2 , } } ; => Int a,*b,*const c,d[3][]={1,{2,}};
int a = b ? 1 : 2 ; => Int a=<b ? 1 : 2>;
int * p [ 3 ] = { & a } ; => Int *p[3]={Address{a}};
a = 1 ; int b ; struct s ; c = 1 ; => a Plain 1;Int b;struct s;c Plain 1;
struct s a ; => struct s a;
struct { int a ; } b ; => struct{Int a;} b;
struct s { struct t { int a [ 2 ] ; } b , c [ 3 ] ; } d ; => struct s{struct t{Int a[2];} b,c[3];} d;
enum e { a , b = 2 , c , } ; => enum e{a,b=2,c,};
enum { a } b = a ; => enum{a} b=a;
enum e a ; => enum e a;
T a ; => T a;
const T const a ; => const T const a;
int const * const p ; => Int const *const p;
struct s const ; => Expected 4
const struct s ; => Expected 4
int ; => Expected 2
int 1 ; => Expected 2
int T ; => Expected 2
int a b ; => Expected 3
int a , ; => Expected 4
int a , int b ; => Expected 4
int a => Expected 3
int a = ; => Expected 4
int a = 1 => Expected 5
int a = 1 b ; => Expected 5
int a [ ; => Expected 4
int a [ 3 ; => Expected 5
int a [ 3 ] b ; => Expected 6
int a [ static 3 ] ; => Construct 4 static
int a [ * ] ; => Expected 5
int a [ 3 ] ( ) ; => Expected 6
int * a [ 3 ] ( ) ; => Expected 7
int a = { } ; => Expected 5
int a = { 1 ; => Expected 6
int a = { , } ; => Construct 5 ,
int a = { 1 , , } ; => Construct 7 ,
int a = { 1 2 } ; => Expected 6
int a = { { } } ; => Expected 6
int a = { . b = 1 } ; => Construct 5 .
int a = { 1 , . b = 1 } ; => Construct 7 .
int a = [ 1 ] ; => Construct 4 [
int a = { [ 0 ] = 1 } ; => Construct 5 [
int a = { 1 , [ 1 ] = 2 } ; => Construct 7 [
int a = { { [ 1 ] } } ; => Construct 6 [
int a = 1 [ b ] ; => Int a=1[b];
int a = ( [ 1 ] ) ; => Expected 5
int a = "b" ; => Construct 4 "
int a = b = 1 ; => Construct 5 =
int a += 1 ; => Construct 3 +=
int ( a ) ; => Construct 2 (
int ( * p ) ; => Construct 2 (
int a , ( b ) ; => Construct 4 (
int * ( p ) ; => Construct 3 (
int * const ( p ) ; => Construct 4 (
int * p ( ) ; => Construct 4 (
int * const p ( ) ; => Construct 5 (
int a , * p ( ) ; => Construct 6 (
int f ( ) ; => Expected 3
T ( a ) ; => Construct 2 (
int * * p ; => Construct 3 *
int * const * p ; => Construct 4 *
int * const const p ; => Expected 4
int * volatile p ; => Construct 3 volatile
int a : 3 ; => Construct 3 :
a b ; => Expected 2
a * b ; => Construct 2 *
struct ; => Expected 2
struct ( ) ; => Expected 2
struct T { int a ; } ; => Expected 2
struct s { } ; => Expected 4
struct s { ; } ; => Expected 4
struct s { a ; } ; => Expected 4
struct s { int ; } ; => Expected 5
struct s { int T ; } ; => Expected 5
struct s { int ( a ) ; } ; => Construct 5 (
struct s { int a , ( b ) ; } ; => Construct 7 (
struct s { int * a ; } ; => Construct 5 *
struct s { int a : 3 ; } ; => Construct 6 :
struct s { int a ( ) ; } ; => Expected 6
struct s { int a = 1 ; } ; => Construct 6 =
struct s { int a } ; => Expected 6
struct s { int a , ; } ; => Expected 7
struct s { int a [ ; } ; => Expected 7
struct s { struct t ; } ; => Expected 6
struct s { static int a ; } ; => Construct 4 static
struct s { int a ; } => Expected 8
struct s { int a ; => Expected 8
struct s ( a ) ; => Construct 3 (
struct s { int a ; } ( b ) ; => Construct 8 (
enum ; => Expected 2
enum ( ) ; => Expected 2
enum { } ; => Expected 3
enum e { , } ; => Construct 4 ,
enum { T } ; => Expected 3
enum { ( a ) } ; => Construct 3 (
enum { a , ( b ) } ; => Construct 5 (
enum { a ( 1 ) } ; => Expected 4
enum { a = } ; => Expected 5
enum { a b } ; => Expected 4
enum { a , , } ; => Construct 5 ,
enum { a = 1 , = 2 } ; => Construct 7 =
enum { a ; => Expected 4
enum { a } ( b ) ; => Construct 5 (
enum e ( a ) ; => Construct 3 (
@typedef int T ;|@typedef Int T;|
int a ; => Int a;
static int a = 1 , * b ; => static Int a=1,*b;
int a , b [ 2 ] ; struct s { int c ; } ; enum { d } ; => Int a,b[2];struct s{Int c;};enum{d};
int a [ 1 ] = { 1 } , b ; => Int a[1]={1},b;
int a = b ( 1 ) ; => Int a=b(1);
const int a ; => const Int a;
const const int const const a ; => const const Int const const a;
struct s const a ; => struct s const a;
struct s { int a ; } b , c = { 1 } ; => struct s{Int a;} b,c={1};
struct s { int a ; } * p ; => struct s{Int a;} *p;
static struct s { int a ; } b ; => static struct s{Int a;} b;
typedef int t ; => typedef Int t;
typedef int t [ 2 ] [ ] ; T a ; => typedef Int t[2][];T a;
typedef struct { int a ; } t ; => typedef struct{Int a;} t;
typedef const T const t ; => typedef const T const t;
void f ( ) { } => Void f(){}
void f ( void ) { } => Void f(void){}
int f ( int a ) { return a ; } => Int f(Int a){return a;}
int f ( const int * const a , T b [ ] [ 3 ] , struct s c ) { } => Int f(const Int *const a,T b[][3],struct s c){}
int f ( void a ) { } => Int f(Void a){}
int f ( void * a ) { } => Int f(Void *a){}
int f ( void const a ) { } => Int f(Void const a){}
inline int f ( ) { } => inline Int f(){}
static int f ( ) { } => static Int f(){}
inline inline static inline int f ( ) { } => inline inline static inline Int f(){}
static inline inline int f ( ) { } => static inline inline Int f(){}
int a ; int f ( ) { } int b ; => Int a;Int f(){}Int b;
int f ( ) { } int f ( ) { } => Int f(){}Int f(){}
struct s f ( ) { } => struct s f(){}
struct { int a ; } f ( ) { } => struct{Int a;} f(){}
enum e { a } f ( enum e b ) { } => enum e{a} f(enum e b){}
; => Expected 1
a = 1 ; => Expected 1
if ( a ) ; => Expected 1
return ; => Expected 1
{ } => Construct 1 {
} => Expected 1
[ => Expected 1
#3 => Expected 1
#3 while ( a ) ; => Expected 1
1 => Expected 1
( a ) => Expected 1
* a ; => Construct 1 *
"a" => Construct 1 "
a b ; => Expected 1
a ( ) { } => Expected 1
int a ; } => Expected 4
int a ; ; => Expected 4
int a ; a = 1 ; => Expected 4
T => Expected 2
T ; => Expected 2
int => Expected 2
int ; => Expected 2
int a => Expected 3
int a = => Expected 4
int a = { 1 => Expected 6
int a [ [ 1 ] ] ; => Expected 4
int a = [ 1 ] ; => Construct 4 [
int a , b = { [ 1 ] } ; => Construct 7 [
const ; => Expected 2
const a ; => Expected 2
unsigned const int a ; => Expected 3
extern int a ; => Construct 1 extern
int extern a ; => Construct 2 extern
int a register ; => Construct 3 register
_Static_assert ( 1 , "a" ) ; => Construct 1 _Static_assert
struct s => Expected 3
struct s { => Expected 4
struct s { int a ; } => Expected 8
struct s const ; => Expected 4
enum e { a => Expected 5
typedef => Expected 2
typedef ; => Expected 2
typedef t ; => Expected 2
typedef int ; => Expected 3
typedef int T ; => Expected 3
typedef struct s ; => Expected 4
typedef int ( t ) ; => Construct 3 (
typedef int * t ; => Construct 3 *
typedef int t , u ; => Construct 4 ,
typedef int t = 1 ; => Construct 4 =
typedef int t : 1 ; => Construct 4 :
typedef int t ( ) ; => Expected 4
typedef int t => Expected 4
typedef int t [ 3 => Expected 6
typedef static int t ; => Construct 2 static
typedef typedef int t ; => Construct 2 typedef
static => Expected 2
static ; => Expected 2
static struct s ; => Expected 4
static static int a ; => Construct 2 static
static typedef int t ; => Construct 2 typedef
static inline static int f ( ) { } => Construct 3 static
static inline int a ; => Expected 5
inline => Expected 2
inline int x ; => Expected 4
inline int x = 1 ; => Construct 4 =
inline int x [ 3 ] ; => Expected 4
inline int x , y ; => Construct 4 ,
inline int * x ( ) { } => Construct 3 *
inline int ( x ) ( ) { } => Construct 3 (
inline struct s ; => Expected 4
inline typedef int t ; => Construct 2 typedef
inline static int a ; => Expected 5
int static a ; => Construct 2 static
int inline f ( ) { } => Construct 2 inline
int f ( ) ; => Construct 5 ;
int f ( int a ) ; => Construct 7 ;
inline int f ( void ) ; => Construct 7 ;
int f ( struct { int a ; } b ) ; => Construct 12 ;
int g ( ) { } int f ( ) ; => Construct 11 ;
int f ( ) , g ( ) ; => Construct 5 ,
int f ( ) = 1 ; => Construct 5 =
int f ( ) int a ; { } => Expected 5
int f ( a ) int a ; { } => Expected 4
int f ( a , b ) { } => Expected 4
int f ( int ) { } => Expected 5
int f ( int ; ) { } => Expected 5
int f ( int ( a ) ) { } => Construct 5 (
int f ( int * ( a ) ) { } => Construct 6 (
int f ( int a ( ) ) { } => Expected 6
int f ( int * a ( ) ) { } => Construct 7 (
int f ( int * * a ) { } => Construct 6 *
int f ( int a , ) { } => Expected 7
int f ( int a , ... ) { } => Construct 7 ...
int f ( , int a ) { } => Construct 4 ,
int f ( int a = 1 ) { } => Construct 6 =
int f ( int a b ) { } => Expected 6
int f ( int a ; int b ) { } => Expected 6
int f ( register int a ) { } => Construct 4 register
int f ( const void ) { } => Expected 6
int f ( int a , void ) { } => Expected 8
int f ( void , int a ) { } => Construct 5 ,
int f ( int a => Expected 6
int f ( => Expected 4
int f ( ) => Expected 5
int f ( ) } => Expected 5
int f ( ) { => Expected 6
int f ( ) { { } => Expected 8
int f ( ) { a = 1 ; => Expected 10
int f ( ) { } ; => Expected 7
int f ( ) { } } => Expected 7
int f ( ) ( ) { } => Expected 5
int f ( ) [ 3 ] { } => Expected 5
int f [ 3 ] ( ) { } => Expected 6
int a , f ( ) { } => Expected 5
int * f ( ) { } => Construct 4 (
int * const f ( ) { } => Construct 5 (
int ( f ) ( ) { } => Construct 2 (
static int ( f ) ( ) { } => Construct 3 (
int f ( ) { int g ( ) { } } => Expected 8
@
 => nothing
/* int */ // a$ => nothing
unsigned mpc_main(unsigned INPUT_A_x) { goto e; e: return 1; } => Construct 1:41 goto
int a => Expected 1:6
int a$$ => Expected 3:1
int$  /* , */ a b; => Expected 2:13
#define E$E int E a E; E => Int a;
#define A int a$A;A,b; => Int a;Int a,b;
#define A int a$A A; => Expected 2:3
#define A a = { 1, [0] = 1 }$int A; => Construct 2:5 [
#define P (int a) ;$int f P => Construct 2:7 ;
int a;$  #pragma bound 3$int b; => Expected 2:3
void f() {$#pragma bound 3$#pragma other$while (a) ; } => Void f(){#3 while(a)<;>}
void f() {$#pragma bound 3$  while 1; } => Expected 3:9
typedef int t; t a; int t; => Expected 1:25
t a; typedef int t; => Expected 1:1
typedef int t, t; => Construct 1:14 ,
typedef struct s { int t; } t; void f(t t) { } => Expected 1:41"###;
