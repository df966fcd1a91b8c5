//! Plans, and the frames that both parties send for them under the turns `ab`, from the words of the seed of zeros. Computed by another program, in
//! Python: a frame by its sender, its length, and the first 16 digits of its SHA-256; then the opened words.

/// A plan with every kind of instruction, at width 8, by another program.
pub const EVERYTHING: (&str, &str) = (
    "plan 61
own0 200 181 202
own1 123 110 155
i Offset 0 1 0 0 0 0
i InAP0 1 8 0 0 0 0
i InAP1 2 8 0 0 1 0
i InBP0 3 8 0 0 0 1
i InBP1 4 8 0 0 8 1
i InYP0 5 8 0 0 16 2
i ChooseIn 6 8 0 0 0 2
i AnswerIn 7 8 0 0 24 0
i AddA 8 8 2 4 34 0
i SubA 9 8 70 4 35 0
i AddLeft 10 8 0 72 36 77
i AddRight 11 8 74 0 35 200
i SubLeft 12 8 0 72 36 9
i SubRight 13 8 74 0 35 3
i MulLeft 14 8 0 72 36 5
i MulRight 15 8 74 0 35 251
i NegA 16 8 72 0 36 0
i Known 17 8 0 0 35 33
i AddA 18 8 74 72 37 0
i LevelA 19 1 0 2 0 0
i TruncA 20 1 74 0 0 0
i ChooseA 21 8 78 0 0 0
i AnswerSharesA 22 8 78 0 32 0
i Carries 23 8 32 0 48 0
i Y2B 24 8 56 0 64 0
i LevelB 25 1 2 8 0 0
i XorB 26 1 92 7 10 0
i XorB 27 1 94 8 2 0
i XorB 28 1 96 10 3 0
i XorB 29 1 98 13 4 0
i XorB 30 1 100 14 5 0
i XorB 31 1 102 16 6 0
i XorB 32 1 104 19 7 0
i XorB 33 1 106 20 8 0
i ChooseB 34 8 72 0 0 0
i AnswerSharesB 35 8 80 0 88 0
i ChooseB 36 8 96 0 0 0
i AnswerToA 37 8 104 0 17 0
i LevelY 38 1 10 8 0 0
i XorY 39 1 92 108 18 0
i XorY 40 1 94 111 19 0
i XorY 41 1 96 112 20 0
i XorY 42 1 98 115 21 0
i XorY 43 1 100 116 22 0
i XorY 44 1 102 119 23 0
i XorY 45 1 104 120 24 0
i XorY 46 1 106 123 25 0
i Y2B 47 8 112 0 120 0
i ChooseB 48 8 128 0 0 0
i AnswerToA 49 8 136 0 45 0
i ChooseA 50 1 2 0 0 0
i AnswerSharesA 51 1 2 0 144 0
i Carries 52 1 144 0 146 15
i OpenA 53 8 70 0 0 0
i OpenA 54 8 76 0 0 0
i OpenA 55 8 74 0 0 0
i OpenA 56 8 78 0 0 0
i OpenY 57 8 147 0 0 0
i OpenB 58 8 155 0 0 0
i OpenB 59 8 163 0 0 0
i OpenY 60 8 171 0 0 0
i OpenA 61 8 36 0 0 0
i OpenY 62 8 179 0 0 0
i OpenB 63 8 187 0 0 0
i OpenA 64 8 92 0 0 0
i OpenY 65 1 195 0 0 0
g MulA 19 8 76 4 36 0
g MulA 19 8 2 72 38 0
g AndB 25 1 6 22 45 0
g AndB 25 1 9 24 46 0
g AndB 25 1 10 26 47 0
g AndB 25 1 13 28 48 0
g AndB 25 1 14 30 49 0
g AndB 25 1 17 32 50 0
g AndB 25 1 18 34 51 0
g AndB 25 1 21 36 52 0
g AndY 7 1 38 54 45 7
g AndY 8 1 41 56 46 8
g AndY 9 1 42 59 47 9
g AndY 10 1 45 61 48 10
g AndY 11 1 46 62 49 11
g AndY 12 1 49 64 50 12
g AndY 13 1 50 67 51 13
g AndY 14 1 53 69 52 14
c 6 8 10 12 14 16 18 20 22 24 26 28 30 32 34 36 38 40 42 44 46 48 50 52 54 56 58 60 62 64 66 68
c 4 72 80 82 84 86 88 90 92 94 96 98 100 102 104 106 108 110 112 114 116 118 120 122 108 110 112 114 116 118 120 122
c 4 72 80 82 84 86 88 90 22 6 8 10 12 14 16 106 22 6 8 10 12 14 16 106 18 20 24 26 28 30 32 34
c 92 94 96 98 100 102 104 106 92 94 96 98 100 102 104 106 38 40 42 44 46 48 50 52 54 56 58 60 62 64 66 68
c 54 56 58 60 62 64 66 68 54 56 58 60 62 64 66 68 94 96 2 108 110 112 114 116 118 120 122 4 72 80 82 84
c 86 88 90 22 6 8 10 12 14 16 1 18 20 24 26 28 30 32 34 38 40 42 44 46 48 50 52 54 56 58 60 62
c 64 66 68 2",
    "f 0 6 2ac483c68eef270f
f 1 6 f8a0680db0669897
f 0 6 112e50b2568c76b4
f 1 6 90043b504b76e582
f 0 133 91006b4b13e9288f
f 1 6 4d099d7fed4bbdca
f 0 261 097f73fd01aef2d3
f 0 9 42afd603aa74102f
f 1 9 d9d1f8afc9edb323
f 1 6 5cad83cc4dc55a00
f 0 389 13a75b73ef4fc38a
f 0 229 0e02d8684bce655f
f 0 13 3431411ae8f1c347
f 1 13 8d173ac177a84b18
f 1 6 52a59fcf4cd43cde
f 0 389 1e50a6e7cafd34e3
f 1 6 a899fe6cfbae93c0
f 0 21 f37ff30938a4a14a
f 0 261 a729d4fd53508101
f 1 6 6df80318c8ddeae8
f 0 21 53064407f7463163
f 1 6 218044b9dc631c9c
f 0 53 280ec3a08c34005a
f 0 5 18b1b592a44f7fbe
f 0 6 68f393194c743863
f 1 6 a404db90bc5fe630
f 0 6 2400fe0b5e823b33
f 1 6 ddf7fb1bd2a87d0d
f 0 6 17e07cc8381482b4
f 1 6 8d9ec2525749fc3c
f 0 6 89db96c2bf670ff8
f 1 6 ffb1b030e92ba170
f 0 6 5735498eb1c8d08f
f 1 6 e64c1cd7c66a73c2
f 0 6 5735498eb1c8d08f
f 1 6 e64c1cd7c66a73c2
f 0 6 297fc333aaae63f5
f 1 6 dc5b9314c89bff62
f 0 6 8883987c181cbcf1
f 1 6 0095031b01165199
f 0 6 3ec7168ab5a5a4c9
f 1 6 5a06eba2a59bb418
f 0 6 e81ddd511de844e4
f 1 6 c82caa9e83793d99
f 0 6 e81ddd511de844e4
f 1 6 c82caa9e83793d99
f 0 6 7ec5ec55f9787b5e
f 1 6 7f25c6c6acf88227
f 0 6 7528dce0d3e367ce
f 1 6 7528dce0d3e367ce
o 67
o 34
o 86
o 200
o 200
o 200
o 242
o 114
o 14
o 34
o 34
o 34
o 0
",
);

/// The plan of a sum of two words at A.
pub const SUM: (&str, &str) = (
    "plan 3
own0 4294967295
own1 1
i Offset 0 1 0 0 0 0
i InAP0 1 32 0 0 0 0
i InAP1 2 32 0 0 1 0
i AddA 3 32 2 4 2 0
i OpenA 4 32 6 0 0 0",
    "f 0 9 a9f76c1bc89a7b7b
f 1 9 f0ebba1b8fd12ee8
f 1 9 526344f4ee3c37d4
f 0 9 a312766ff8dd4af2
o 0
",
);

/// The plan of a product of two words at A.
pub const PRODUCT: (&str, &str) = (
    "plan 3
own0 6
own1 7
i Offset 0 1 0 0 0 0
i InAP0 1 32 0 0 0 0
i InAP1 2 32 0 0 1 0
i LevelA 3 1 0 1 0 0
i OpenA 4 32 6 0 0 0
g MulA 3 32 2 4 2 0",
    "f 0 9 375bb1809d0b5386
f 1 9 a24a110712c57815
f 1 13 73c3f6d5b2a25448
f 0 13 665ae7b8e2085ed7
f 0 9 4ef01c550d5ba787
f 1 9 8a3469b9e54ed6b7
o 42
",
);

/// The plan of a sum at A, masked at Y.
pub const MASKED: (&str, &str) = (
    "plan 128
own0 5 10
own1 7
i Offset 0 1 0 0 0 0
i InAP0 1 32 0 0 0 0
i InAP1 2 32 0 0 1 0
i InYP0 3 32 0 0 0 1
i AddA 4 32 2 4 34 0
i ChooseA 5 32 70 0 0 0
i AnswerSharesA 6 32 70 0 32 0
i Carries 7 32 32 0 96 0
i LevelY 8 1 0 32 0 0
i OpenY 9 32 128 0 0 0
g AndY 31 1 6 70 0 31
g AndY 32 1 8 196 1 32
g AndY 33 1 10 198 35 33
g AndY 34 1 12 200 36 34
g AndY 35 1 14 202 37 35
g AndY 36 1 16 204 38 36
g AndY 37 1 18 206 39 37
g AndY 38 1 20 208 40 38
g AndY 39 1 22 210 41 39
g AndY 40 1 24 212 42 40
g AndY 41 1 26 214 43 41
g AndY 42 1 28 216 44 42
g AndY 43 1 30 218 45 43
g AndY 44 1 32 220 46 44
g AndY 45 1 34 222 47 45
g AndY 46 1 36 224 48 46
g AndY 47 1 38 226 49 47
g AndY 48 1 40 228 50 48
g AndY 49 1 42 230 51 49
g AndY 50 1 44 232 52 50
g AndY 51 1 46 234 53 51
g AndY 52 1 48 236 54 52
g AndY 53 1 50 238 55 53
g AndY 54 1 52 240 56 54
g AndY 55 1 54 242 57 55
g AndY 56 1 56 244 58 56
g AndY 57 1 58 246 59 57
g AndY 58 1 60 248 60 58
g AndY 59 1 62 250 61 59
g AndY 60 1 64 252 62 60
g AndY 61 1 66 254 63 61
g AndY 62 1 68 256 64 62
c 6 8 10 12 14 16 18 20 22 24 26 28 30 32 34 36 38 40 42 44 46 48 50 52 54 56 58 60 62 64 66 68
c 2 4 72 74 76 78 80 82 84 86 88 90 92 94 96 98 100 102 104 106 108 110 112 114 116 118 120 122 124 126 128 130
c 132 134 136 138 140 142 144 146 148 150 152 154 156 158 160 162 164 166 168 170 172 174 176 178 180 182 184 186 188 190 192 194
c 70 196 198 200 202 204 206 208 210 212 214 216 218 220 222 224 226 228 230 232 234 236 238 240 242 244 246 248 250 252 254 256
c 2 4 72 74 76 78 80 82 84 86 88 90 92 94 96 98 100 102 104 106 108 110 112 114 116 118 120 122 124 126 128 130",
    "f 0 9 fd859d939b5c22eb
f 1 9 a24a110712c57815
f 0 517 297d5683c1cfeae9
f 1 9 1fcf3c9bfbac6b35
f 0 1541 35bbcec721df4119
f 0 997 811febe425847e46
f 0 1029 5f3b27cb170a2033
f 0 9 ab32a3c74003300d
f 1 9 cdd94bb9fcedb492
o 8
",
);
