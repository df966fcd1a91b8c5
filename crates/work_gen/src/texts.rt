/// A program, the inputs of both parties, and a cost table, as texts.
#[derive(Debug, Drop)]
pub struct Work {
    pub source: Vec<u8>,
    pub a: Vec<u8>,
    pub b: Vec<u8>,
    pub table: Vec<u8>,
}

/// The greatest number of which there is work.
pub const WORK_LIMIT: u32 = 256;

/// The program up to the number of points.
pub const SOURCE_HEAD: &str = "\
#include <stdint.h>
#define N ";

/// The program after the number of points.
pub const SOURCE_TAIL: &str = "
#define D 4
uint32_t mpc_main(uint32_t INPUT_A_p[N][D], uint32_t INPUT_B_q[D])
{
    uint32_t best = 0xffffffff;
    for (int i = 0; i < N; i++) {
        uint32_t sum = 0;
        for (int j = 0; j < D; j++) {
            uint32_t d = INPUT_A_p[i][j] - INPUT_B_q[j];
            sum += d * d;
        }
        if (sum < best) best = sum;
    }
    return best;
}
";

/// The point of the second party.
pub const QUERY: &str = "{\"INPUT_B_q\":[500,513,526,539]}\n";

/// The cost table.
pub const TABLE: &str = "{\"a_mul\":{\"8\":10,\"16\":12,\"32\":16,\"64\":24},\
\"a2b\":{\"1\":7,\"8\":56,\"16\":112,\"32\":224,\"64\":448},\
\"a2y\":{\"1\":6,\"8\":48,\"16\":96,\"32\":192,\"64\":384},\
\"b2a\":{\"1\":5,\"8\":40,\"16\":80,\"32\":160,\"64\":320},\
\"b2y\":{\"1\":3,\"8\":24,\"16\":48,\"32\":96,\"64\":192},\
\"y2a\":{\"1\":5,\"8\":40,\"16\":80,\"32\":160,\"64\":320},\
\"y2b\":{\"1\":0,\"8\":0,\"16\":0,\"32\":0,\"64\":0},\
\"b_and\":2,\"b_level\":40,\"y_and\":3}\n";
