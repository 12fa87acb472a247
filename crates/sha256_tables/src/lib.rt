// The constant words of SHA-256, from FIPS 180-4, and the rule of each table: the first 32 bits of the fractions of roots of primes.
#![tactic(auto)]

ghost use Rattle.std.specs.Prelude.{◌≡◌, map};
ghost use Rattle.sha256_tables.specs.Primes.{first_primes};
ghost use Rattle.sha256_tables.specs.Roots.{root_bits};

// K of section 4.2.2: a word for each round, behind it the round and its prime.
const ROUNDS: [u32; 64] = [
    0x428a2f98, //  0:   2
    0x71374491, //  1:   3
    0xb5c0fbcf, //  2:   5
    0xe9b5dba5, //  3:   7
    0x3956c25b, //  4:  11
    0x59f111f1, //  5:  13
    0x923f82a4, //  6:  17
    0xab1c5ed5, //  7:  19
    0xd807aa98, //  8:  23
    0x12835b01, //  9:  29
    0x243185be, // 10:  31
    0x550c7dc3, // 11:  37
    0x72be5d74, // 12:  41
    0x80deb1fe, // 13:  43
    0x9bdc06a7, // 14:  47
    0xc19bf174, // 15:  53
    0xe49b69c1, // 16:  59
    0xefbe4786, // 17:  61
    0x0fc19dc6, // 18:  67
    0x240ca1cc, // 19:  71
    0x2de92c6f, // 20:  73
    0x4a7484aa, // 21:  79
    0x5cb0a9dc, // 22:  83
    0x76f988da, // 23:  89
    0x983e5152, // 24:  97
    0xa831c66d, // 25: 101
    0xb00327c8, // 26: 103
    0xbf597fc7, // 27: 107
    0xc6e00bf3, // 28: 109
    0xd5a79147, // 29: 113
    0x06ca6351, // 30: 127
    0x14292967, // 31: 131
    0x27b70a85, // 32: 137
    0x2e1b2138, // 33: 139
    0x4d2c6dfc, // 34: 149
    0x53380d13, // 35: 151
    0x650a7354, // 36: 157
    0x766a0abb, // 37: 163
    0x81c2c92e, // 38: 167
    0x92722c85, // 39: 173
    0xa2bfe8a1, // 40: 179
    0xa81a664b, // 41: 181
    0xc24b8b70, // 42: 191
    0xc76c51a3, // 43: 193
    0xd192e819, // 44: 197
    0xd6990624, // 45: 199
    0xf40e3585, // 46: 211
    0x106aa070, // 47: 223
    0x19a4c116, // 48: 227
    0x1e376c08, // 49: 229
    0x2748774c, // 50: 233
    0x34b0bcb5, // 51: 239
    0x391c0cb3, // 52: 241
    0x4ed8aa4a, // 53: 251
    0x5b9cca4f, // 54: 257
    0x682e6ff3, // 55: 263
    0x748f82ee, // 56: 269
    0x78a5636f, // 57: 271
    0x84c87814, // 58: 277
    0x8cc70208, // 59: 281
    0x90befffa, // 60: 283
    0xa4506ceb, // 61: 293
    0xbef9a3f7, // 62: 307
    0xc67178f2, // 63: 311
];

// H(0) of section 5.3.3: the state before the first block, behind each word its name and its prime.
const START: [u32; 8] = [
    0x6a09e667, // a:  2
    0xbb67ae85, // b:  3
    0x3c6ef372, // c:  5
    0xa54ff53a, // d:  7
    0x510e527f, // e: 11
    0x9b05688c, // f: 13
    0x1f83d9ab, // g: 17
    0x5be0cd19, // h: 19
];

// The words of the rounds. Their rule: the cube roots of the first 64 primes.
pub fn round_words() -> [u32; 64]
    ensures { result ≡ map (root_bits 3) (first_primes 64) }
{
    ROUNDS
}

// The words to start with. Their rule: the square roots of the first eight primes.
pub fn start_words() -> [u32; 8]
    ensures { result ≡ map (root_bits 2) (first_primes 8) }
{
    START
}
