// Tables of what the field encoder answers to the lines of a listing, worked out from Intel's manual: the bytes with their
// constants, or why there are none.

// Every condition, short and near.
pub const CONDITIONS: &str = "
bits 64
at 0x401000
1 jo short 64 0x401012 => 70 10 constants 0,0,1,1,0,0
1 jo near 64 0x401016 => 0F 80 10 00 00 00 constants 0,0,2,4,0,0
1 jno short 64 0x401012 => 71 10 constants 0,0,1,1,0,0
1 jno near 64 0x401016 => 0F 81 10 00 00 00 constants 0,0,2,4,0,0
1 jb short 64 0x401012 => 72 10 constants 0,0,1,1,0,0
1 jb near 64 0x401016 => 0F 82 10 00 00 00 constants 0,0,2,4,0,0
1 jae short 64 0x401012 => 73 10 constants 0,0,1,1,0,0
1 jae near 64 0x401016 => 0F 83 10 00 00 00 constants 0,0,2,4,0,0
1 je short 64 0x401012 => 74 10 constants 0,0,1,1,0,0
1 je near 64 0x401016 => 0F 84 10 00 00 00 constants 0,0,2,4,0,0
1 jne short 64 0x401012 => 75 10 constants 0,0,1,1,0,0
1 jne near 64 0x401016 => 0F 85 10 00 00 00 constants 0,0,2,4,0,0
1 jbe short 64 0x401012 => 76 10 constants 0,0,1,1,0,0
1 jbe near 64 0x401016 => 0F 86 10 00 00 00 constants 0,0,2,4,0,0
1 ja short 64 0x401012 => 77 10 constants 0,0,1,1,0,0
1 ja near 64 0x401016 => 0F 87 10 00 00 00 constants 0,0,2,4,0,0
1 js short 64 0x401012 => 78 10 constants 0,0,1,1,0,0
1 js near 64 0x401016 => 0F 88 10 00 00 00 constants 0,0,2,4,0,0
1 jns short 64 0x401012 => 79 10 constants 0,0,1,1,0,0
1 jns near 64 0x401016 => 0F 89 10 00 00 00 constants 0,0,2,4,0,0
1 jp short 64 0x401012 => 7A 10 constants 0,0,1,1,0,0
1 jp near 64 0x401016 => 0F 8A 10 00 00 00 constants 0,0,2,4,0,0
1 jnp short 64 0x401012 => 7B 10 constants 0,0,1,1,0,0
1 jnp near 64 0x401016 => 0F 8B 10 00 00 00 constants 0,0,2,4,0,0
1 jl short 64 0x401012 => 7C 10 constants 0,0,1,1,0,0
1 jl near 64 0x401016 => 0F 8C 10 00 00 00 constants 0,0,2,4,0,0
1 jge short 64 0x401012 => 7D 10 constants 0,0,1,1,0,0
1 jge near 64 0x401016 => 0F 8D 10 00 00 00 constants 0,0,2,4,0,0
1 jle short 64 0x401012 => 7E 10 constants 0,0,1,1,0,0
1 jle near 64 0x401016 => 0F 8E 10 00 00 00 constants 0,0,2,4,0,0
1 jg short 64 0x401012 => 7F 10 constants 0,0,1,1,0,0
1 jg near 64 0x401016 => 0F 8F 10 00 00 00 constants 0,0,2,4,0,0
";

// Each bitness with each width: 66 stands where they differ.
pub const WIDTHS: &str = "
bits 16
at 0x401000
1 jmp short 16 0x401012 => EB 10 constants 0,0,1,1,0,0
1 jmp short 32 0x401013 => 66 EB 10 constants 0,0,2,1,0,0
bits 32
1 jmp short 16 0x401013 => 66 EB 10 constants 0,0,2,1,0,0
1 jmp short 32 0x401012 => EB 10 constants 0,0,1,1,0,0
bits 64
1 jmp short 64 0x401012 => EB 10 constants 0,0,1,1,0,0
bits 16
1 jmp near 16 0x401013 => E9 10 00 constants 0,0,1,2,0,0
1 jmp near 32 0x401016 => 66 E9 10 00 00 00 constants 0,0,2,4,0,0
bits 32
1 jmp near 16 0x401014 => 66 E9 10 00 constants 0,0,2,2,0,0
1 jmp near 32 0x401015 => E9 10 00 00 00 constants 0,0,1,4,0,0
bits 64
1 jmp near 64 0x401015 => E9 10 00 00 00 constants 0,0,1,4,0,0
bits 16
1 je near 16 0x401014 => 0F 84 10 00 constants 0,0,2,2,0,0
1 je near 32 0x401017 => 66 0F 84 10 00 00 00 constants 0,0,3,4,0,0
bits 32
1 je near 16 0x401015 => 66 0F 84 10 00 constants 0,0,3,2,0,0
1 je near 32 0x401016 => 0F 84 10 00 00 00 constants 0,0,2,4,0,0
bits 64
1 je near 64 0x401016 => 0F 84 10 00 00 00 constants 0,0,2,4,0,0
bits 16
1 call near 16 0x401013 => E8 10 00 constants 0,0,1,2,0,0
1 call near 32 0x401016 => 66 E8 10 00 00 00 constants 0,0,2,4,0,0
bits 32
1 call near 16 0x401014 => 66 E8 10 00 constants 0,0,2,2,0,0
1 call near 32 0x401015 => E8 10 00 00 00 constants 0,0,1,4,0,0
bits 64
1 call near 64 0x401015 => E8 10 00 00 00 constants 0,0,1,4,0,0
bits 16
1 jmp short 64 0x401000 => no size
1 jmp near 64 0x401000 => no size
1 je short 64 0x401000 => no size
1 je near 64 0x401000 => no size
1 call near 64 0x401000 => no size
bits 32
1 jmp short 64 0x401000 => no size
1 jmp near 64 0x401000 => no size
1 je short 64 0x401000 => no size
1 je near 64 0x401000 => no size
1 call near 64 0x401000 => no size
bits 64
1 jmp short 16 0x401000 => no size
1 jmp near 16 0x401000 => no size
1 je short 16 0x401000 => no size
1 je near 16 0x401000 => no size
1 call near 16 0x401000 => no size
1 jmp short 32 0x401000 => no size
1 jmp near 32 0x401000 => no size
1 je short 32 0x401000 => no size
1 je near 32 0x401000 => no size
1 call near 32 0x401000 => no size
";

// Plain kinds and registers.
pub const PLAIN: &str = "
bits 16
at 0x401000
1 nop => 90 constants 0,0,0,0,0,0
1 ret => C3 constants 0,0,0,0,0,0
1 int3 => CC constants 0,0,0,0,0,0
1 push 0 => 50 constants 0,0,0,0,0,0
1 push 7 => 57 constants 0,0,0,0,0,0
1 pop 0 => 58 constants 0,0,0,0,0,0
1 pop 7 => 5F constants 0,0,0,0,0,0
bits 32
1 nop => 90 constants 0,0,0,0,0,0
1 ret => C3 constants 0,0,0,0,0,0
1 int3 => CC constants 0,0,0,0,0,0
1 push 0 => 50 constants 0,0,0,0,0,0
1 push 7 => 57 constants 0,0,0,0,0,0
1 pop 0 => 58 constants 0,0,0,0,0,0
1 pop 7 => 5F constants 0,0,0,0,0,0
bits 64
1 nop => 90 constants 0,0,0,0,0,0
1 ret => C3 constants 0,0,0,0,0,0
1 int3 => CC constants 0,0,0,0,0,0
1 push 0 => 50 constants 0,0,0,0,0,0
1 push 1 => 51 constants 0,0,0,0,0,0
1 push 2 => 52 constants 0,0,0,0,0,0
1 push 3 => 53 constants 0,0,0,0,0,0
1 push 4 => 54 constants 0,0,0,0,0,0
1 push 5 => 55 constants 0,0,0,0,0,0
1 push 6 => 56 constants 0,0,0,0,0,0
1 push 7 => 57 constants 0,0,0,0,0,0
1 pop 0 => 58 constants 0,0,0,0,0,0
1 pop 1 => 59 constants 0,0,0,0,0,0
1 pop 2 => 5A constants 0,0,0,0,0,0
1 pop 3 => 5B constants 0,0,0,0,0,0
1 pop 4 => 5C constants 0,0,0,0,0,0
1 pop 5 => 5D constants 0,0,0,0,0,0
1 pop 6 => 5E constants 0,0,0,0,0,0
1 pop 7 => 5F constants 0,0,0,0,0,0
1 push 8 => 41 50 constants 0,0,0,0,0,0
1 push 9 => 41 51 constants 0,0,0,0,0,0
1 push 10 => 41 52 constants 0,0,0,0,0,0
1 push 11 => 41 53 constants 0,0,0,0,0,0
1 push 12 => 41 54 constants 0,0,0,0,0,0
1 push 13 => 41 55 constants 0,0,0,0,0,0
1 push 14 => 41 56 constants 0,0,0,0,0,0
1 push 15 => 41 57 constants 0,0,0,0,0,0
1 pop 8 => 41 58 constants 0,0,0,0,0,0
1 pop 9 => 41 59 constants 0,0,0,0,0,0
1 pop 10 => 41 5A constants 0,0,0,0,0,0
1 pop 11 => 41 5B constants 0,0,0,0,0,0
1 pop 12 => 41 5C constants 0,0,0,0,0,0
1 pop 13 => 41 5D constants 0,0,0,0,0,0
1 pop 14 => 41 5E constants 0,0,0,0,0,0
1 pop 15 => 41 5F constants 0,0,0,0,0,0
1 step 0 => 48 8D 40 01 constants 3,1,0,0,0,0
1 step 1 => 48 8D 49 01 constants 3,1,0,0,0,0
1 step 2 => 48 8D 52 01 constants 3,1,0,0,0,0
1 step 3 => 48 8D 5B 01 constants 3,1,0,0,0,0
1 step 5 => 48 8D 6D 01 constants 3,1,0,0,0,0
1 step 6 => 48 8D 76 01 constants 3,1,0,0,0,0
1 step 7 => 48 8D 7F 01 constants 3,1,0,0,0,0
1 step 8 => 4D 8D 40 01 constants 3,1,0,0,0,0
1 step 9 => 4D 8D 49 01 constants 3,1,0,0,0,0
1 step 10 => 4D 8D 52 01 constants 3,1,0,0,0,0
1 step 11 => 4D 8D 5B 01 constants 3,1,0,0,0,0
1 step 13 => 4D 8D 6D 01 constants 3,1,0,0,0,0
1 step 14 => 4D 8D 76 01 constants 3,1,0,0,0,0
1 step 15 => 4D 8D 7F 01 constants 3,1,0,0,0,0
";

// Memory kinds and registers, relative to RIP and to EIP.
pub const OPERANDS: &str = "
bits 64
at 0x401000
1 load 0 64 0x401017 => 48 8B 05 10 00 00 00 constants 3,4,0,0,0,0
1 load 1 64 0x401017 => 48 8B 0D 10 00 00 00 constants 3,4,0,0,0,0
1 load 2 64 0x401017 => 48 8B 15 10 00 00 00 constants 3,4,0,0,0,0
1 load 3 64 0x401017 => 48 8B 1D 10 00 00 00 constants 3,4,0,0,0,0
1 load 4 64 0x401017 => 48 8B 25 10 00 00 00 constants 3,4,0,0,0,0
1 load 5 64 0x401017 => 48 8B 2D 10 00 00 00 constants 3,4,0,0,0,0
1 load 6 64 0x401017 => 48 8B 35 10 00 00 00 constants 3,4,0,0,0,0
1 load 7 64 0x401017 => 48 8B 3D 10 00 00 00 constants 3,4,0,0,0,0
1 load 8 64 0x401017 => 4C 8B 05 10 00 00 00 constants 3,4,0,0,0,0
1 load 9 64 0x401017 => 4C 8B 0D 10 00 00 00 constants 3,4,0,0,0,0
1 load 10 64 0x401017 => 4C 8B 15 10 00 00 00 constants 3,4,0,0,0,0
1 load 11 64 0x401017 => 4C 8B 1D 10 00 00 00 constants 3,4,0,0,0,0
1 load 12 64 0x401017 => 4C 8B 25 10 00 00 00 constants 3,4,0,0,0,0
1 load 13 64 0x401017 => 4C 8B 2D 10 00 00 00 constants 3,4,0,0,0,0
1 load 14 64 0x401017 => 4C 8B 35 10 00 00 00 constants 3,4,0,0,0,0
1 load 15 64 0x401017 => 4C 8B 3D 10 00 00 00 constants 3,4,0,0,0,0
1 store 0 64 0x401017 => 48 89 05 10 00 00 00 constants 3,4,0,0,0,0
1 store 7 64 0x401017 => 48 89 3D 10 00 00 00 constants 3,4,0,0,0,0
1 store 8 64 0x401017 => 4C 89 05 10 00 00 00 constants 3,4,0,0,0,0
1 store 15 64 0x401017 => 4C 89 3D 10 00 00 00 constants 3,4,0,0,0,0
1 address 0 64 0x401017 => 48 8D 05 10 00 00 00 constants 3,4,0,0,0,0
1 address 7 64 0x401017 => 48 8D 3D 10 00 00 00 constants 3,4,0,0,0,0
1 address 8 64 0x401017 => 4C 8D 05 10 00 00 00 constants 3,4,0,0,0,0
1 address 15 64 0x401017 => 4C 8D 3D 10 00 00 00 constants 3,4,0,0,0,0
1 load 0 32 0x401018 => 67 48 8B 05 10 00 00 00 constants 4,4,0,0,0,0
1 load 15 32 0x401018 => 67 4C 8B 3D 10 00 00 00 constants 4,4,0,0,0,0
1 store 7 32 0x401018 => 67 48 89 3D 10 00 00 00 constants 4,4,0,0,0,0
1 store 8 32 0x401018 => 67 4C 89 05 10 00 00 00 constants 4,4,0,0,0,0
1 address 1 32 0x401018 => 67 48 8D 0D 10 00 00 00 constants 4,4,0,0,0,0
1 address 14 32 0x401018 => 67 4C 8D 35 10 00 00 00 constants 4,4,0,0,0,0
1 compare 0 64 0x401018 => 48 83 3D 10 00 00 00 00 constants 3,4,7,1,0,0
1 compare 127 64 0x401018 => 48 83 3D 10 00 00 00 7F constants 3,4,7,1,0,0
1 compare 255 64 0x401018 => 48 83 3D 10 00 00 00 FF constants 3,4,7,1,0,0
1 compare 0 32 0x401019 => 67 48 83 3D 10 00 00 00 00 constants 4,4,8,1,0,0
1 compare 128 32 0x401019 => 67 48 83 3D 10 00 00 00 80 constants 4,4,8,1,0,0
";

// From -128 to 127; behind the last address comes the first, and bits past the width do not count.
pub const SHORT: &str = "
bits 64
at 0x401000
1 jmp short 64 0x400F82 => EB 80 constants 0,0,1,1,0,0
1 jmp short 64 0x401000 => EB FE constants 0,0,1,1,0,0
1 jmp short 64 0x401001 => EB FF constants 0,0,1,1,0,0
1 jmp short 64 0x401002 => EB 00 constants 0,0,1,1,0,0
1 jmp short 64 0x401081 => EB 7F constants 0,0,1,1,0,0
at 0xFFFFFFFFFFFFFFFE
1 jmp short 64 0xFFFFFFFFFFFFFF80 => EB 80 constants 0,0,1,1,0,0
1 jmp short 64 0x0 => EB 00 constants 0,0,1,1,0,0
1 jmp short 64 0x7F => EB 7F constants 0,0,1,1,0,0
at 0x401000
1 jmp short 64 0x400F81 => out of reach
1 jmp short 64 0x401082 => out of reach
at 0xFFFFFFFFFFFFFFFE
1 jmp short 64 0xFFFFFFFFFFFFFF7F => out of reach
1 jmp short 64 0x80 => out of reach
at 0x401000
1 jmp short 64 0x411002 => out of reach
1 jmp short 64 0x100401002 => out of reach
1 jmp short 64 0x8000000000401002 => out of reach
bits 16
at 0xFFFE
1 jmp short 16 0x7F => EB 7F constants 0,0,1,1,0,0
1 jmp short 16 0x1007F => EB 7F constants 0,0,1,1,0,0
1 jmp short 16 0xFF80 => EB 80 constants 0,0,1,1,0,0
at 0x3FFFE
1 jmp short 16 0xFFFFFFFFFFFFFF80 => EB 80 constants 0,0,1,1,0,0
bits 32
at 0xFFFFFFFE
1 jne short 32 0x7F => 75 7F constants 0,0,1,1,0,0
1 jne short 32 0x10000007F => 75 7F constants 0,0,1,1,0,0
1 jne short 32 0xFFFFFF80 => 75 80 constants 0,0,1,1,0,0
at 0x3FFFFFFFE
1 jne short 32 0xFFFFFFFFFFFFFF80 => 75 80 constants 0,0,1,1,0,0
at 0xFFFD
1 jmp short 16 0x7F => 66 EB 7F constants 0,0,2,1,0,0
1 jmp short 16 0xFF80 => 66 EB 80 constants 0,0,2,1,0,0
bits 16
at 0xFFFFFFFD
1 jne short 32 0x7F => 66 75 7F constants 0,0,2,1,0,0
1 jne short 32 0xFFFFFF80 => 66 75 80 constants 0,0,2,1,0,0
at 0xFFFE
1 jmp short 16 0x80 => out of reach
1 jmp short 16 0x10080 => out of reach
1 jmp short 16 0xFF7F => out of reach
bits 32
at 0xFFFD
1 jmp short 16 0x80 => out of reach
1 jmp short 16 0xFF7F => out of reach
at 0xFFFFFFFE
1 jne short 32 0x80 => out of reach
1 jne short 32 0x100000080 => out of reach
1 jne short 32 0xFFFFFF7F => out of reach
bits 16
at 0xFFFFFFFD
1 jne short 32 0x80 => out of reach
1 jne short 32 0xFFFFFF7F => out of reach
";

// From -2^31 to 2^31 - 1.
pub const NEAR: &str = "
bits 64
at 0x100000000
1 jmp near 64 0x80000005 => E9 00 00 00 80 constants 0,0,1,4,0,0
1 jmp near 64 0x11234567D => E9 78 56 34 12 constants 0,0,1,4,0,0
1 jmp near 64 0x180000004 => E9 FF FF FF 7F constants 0,0,1,4,0,0
1 jne near 64 0x80000006 => 0F 85 00 00 00 80 constants 0,0,2,4,0,0
1 jne near 64 0x180000005 => 0F 85 FF FF FF 7F constants 0,0,2,4,0,0
1 load 0 64 0x80000007 => 48 8B 05 00 00 00 80 constants 3,4,0,0,0,0
1 load 0 64 0x180000006 => 48 8B 05 FF FF FF 7F constants 3,4,0,0,0,0
1 compare 42 64 0x80000008 => 48 83 3D 00 00 00 80 2A constants 3,4,7,1,0,0
1 compare 42 64 0x180000007 => 48 83 3D FF FF FF 7F 2A constants 3,4,7,1,0,0
at 0xFFFFFFFFFFFFFFFB
1 jmp near 64 0xFFFFFFFF80000000 => E9 00 00 00 80 constants 0,0,1,4,0,0
1 jmp near 64 0x0 => E9 00 00 00 00 constants 0,0,1,4,0,0
1 jmp near 64 0x7FFFFFFF => E9 FF FF FF 7F constants 0,0,1,4,0,0
at 0x100000000
1 jmp near 64 0x80000004 => out of reach
1 jmp near 64 0x180000005 => out of reach
1 jne near 64 0x80000005 => out of reach
1 jne near 64 0x180000006 => out of reach
1 load 0 64 0x80000006 => out of reach
1 load 0 64 0x180000007 => out of reach
1 compare 42 64 0x80000007 => out of reach
1 compare 42 64 0x180000008 => out of reach
at 0xFFFFFFFFFFFFFFFB
1 jmp near 64 0xFFFFFFFF7FFFFFFF => out of reach
1 jmp near 64 0x80000000 => out of reach
1 jmp near 64 0x8000000000000000 => out of reach
";

// A field as wide as the width reaches every target.
pub const WRAPPED: &str = "
bits 16
at 0x1000
1 jmp near 16 0x2237 => E9 34 12 constants 0,0,1,2,0,0
1 jmp near 16 0x9002 => E9 FF 7F constants 0,0,1,2,0,0
1 jmp near 16 0x9003 => E9 00 80 constants 0,0,1,2,0,0
1 jmp near 16 0x11003 => E9 00 00 constants 0,0,1,2,0,0
1 jmp near 16 0xFFFFFFFFFFFF9003 => E9 00 80 constants 0,0,1,2,0,0
1 jmp near 16 0xFFFFFFFFFFFF9002 => E9 FF 7F constants 0,0,1,2,0,0
bits 32
1 jne near 16 0x9004 => 66 0F 85 FF 7F constants 0,0,3,2,0,0
1 jne near 16 0x9005 => 66 0F 85 00 80 constants 0,0,3,2,0,0
1 jmp near 32 0x1234667D => E9 78 56 34 12 constants 0,0,1,4,0,0
1 jmp near 32 0x80001004 => E9 FF FF FF 7F constants 0,0,1,4,0,0
1 jmp near 32 0x80001005 => E9 00 00 00 80 constants 0,0,1,4,0,0
1 jmp near 32 0x100001005 => E9 00 00 00 00 constants 0,0,1,4,0,0
1 jmp near 32 0xFFFFFFFF80001005 => E9 00 00 00 80 constants 0,0,1,4,0,0
1 jmp near 32 0xFFFFFFFF80001004 => E9 FF FF FF 7F constants 0,0,1,4,0,0
bits 16
1 call near 32 0x80001005 => 66 E8 FF FF FF 7F constants 0,0,2,4,0,0
1 call near 32 0x80001006 => 66 E8 00 00 00 80 constants 0,0,2,4,0,0
bits 64
1 load 0 32 0x80001007 => 67 48 8B 05 FF FF FF 7F constants 4,4,0,0,0,0
1 load 0 32 0x80001008 => 67 48 8B 05 00 00 00 80 constants 4,4,0,0,0,0
1 load 0 32 0x100001008 => 67 48 8B 05 00 00 00 00 constants 4,4,0,0,0,0
1 load 0 32 0xFFFFFFFF80001008 => 67 48 8B 05 00 00 00 80 constants 4,4,0,0,0,0
1 load 0 32 0xFFFFFFFF80001007 => 67 48 8B 05 FF FF FF 7F constants 4,4,0,0,0,0
bits 16
at 0x500001000
1 jmp near 16 0x2237 => E9 34 12 constants 0,0,1,2,0,0
1 jmp near 16 0x9002 => E9 FF 7F constants 0,0,1,2,0,0
1 jmp near 16 0x9003 => E9 00 80 constants 0,0,1,2,0,0
1 jmp near 16 0x11003 => E9 00 00 constants 0,0,1,2,0,0
1 jmp near 16 0xFFFFFFFFFFFF9003 => E9 00 80 constants 0,0,1,2,0,0
1 jmp near 16 0xFFFFFFFFFFFF9002 => E9 FF 7F constants 0,0,1,2,0,0
bits 32
1 jne near 16 0x9004 => 66 0F 85 FF 7F constants 0,0,3,2,0,0
1 jne near 16 0x9005 => 66 0F 85 00 80 constants 0,0,3,2,0,0
1 jmp near 32 0x1234667D => E9 78 56 34 12 constants 0,0,1,4,0,0
1 jmp near 32 0x80001004 => E9 FF FF FF 7F constants 0,0,1,4,0,0
1 jmp near 32 0x80001005 => E9 00 00 00 80 constants 0,0,1,4,0,0
1 jmp near 32 0x100001005 => E9 00 00 00 00 constants 0,0,1,4,0,0
1 jmp near 32 0xFFFFFFFF80001005 => E9 00 00 00 80 constants 0,0,1,4,0,0
1 jmp near 32 0xFFFFFFFF80001004 => E9 FF FF FF 7F constants 0,0,1,4,0,0
bits 16
1 call near 32 0x80001005 => 66 E8 FF FF FF 7F constants 0,0,2,4,0,0
1 call near 32 0x80001006 => 66 E8 00 00 00 80 constants 0,0,2,4,0,0
bits 64
1 load 0 32 0x80001007 => 67 48 8B 05 FF FF FF 7F constants 4,4,0,0,0,0
1 load 0 32 0x80001008 => 67 48 8B 05 00 00 00 80 constants 4,4,0,0,0,0
1 load 0 32 0x100001008 => 67 48 8B 05 00 00 00 00 constants 4,4,0,0,0,0
1 load 0 32 0xFFFFFFFF80001008 => 67 48 8B 05 00 00 00 80 constants 4,4,0,0,0,0
1 load 0 32 0xFFFFFFFF80001007 => 67 48 8B 05 FF FF FF 7F constants 4,4,0,0,0,0
";

// The nearest neighbours of what is listed.
pub const UNLISTED: &str = "
bits 16
at 0x401000
1 call short 16 0x401000 => no size
1 jne short 16 0x401000 body 1 => no size
1 jne short 16 0x401000 body 0x100 => no size
1 jne short 16 0x401000 body 0x10000 => no size
1 jne short 16 0x401000 body 0x80000000 => no size
1 jmp near 16 0x401000 body 1 => no size
1 jmp near 16 0x401000 body 0x100 => no size
1 jmp near 16 0x401000 body 0x10000 => no size
1 jmp near 16 0x401000 body 0x80000000 => no size
1 call near 16 0x401000 body 1 => no size
1 call near 16 0x401000 body 0x100 => no size
1 call near 16 0x401000 body 0x10000 => no size
1 call near 16 0x401000 body 0x80000000 => no size
1 call short 32 0x401000 => no size
1 jne short 32 0x401000 body 1 => no size
1 jne short 32 0x401000 body 0x100 => no size
1 jne short 32 0x401000 body 0x10000 => no size
1 jne short 32 0x401000 body 0x80000000 => no size
1 jmp near 32 0x401000 body 1 => no size
1 jmp near 32 0x401000 body 0x100 => no size
1 jmp near 32 0x401000 body 0x10000 => no size
1 jmp near 32 0x401000 body 0x80000000 => no size
1 call near 32 0x401000 body 1 => no size
1 call near 32 0x401000 body 0x100 => no size
1 call near 32 0x401000 body 0x10000 => no size
1 call near 32 0x401000 body 0x80000000 => no size
bits 32
1 call short 16 0x401000 => no size
1 jne short 16 0x401000 body 1 => no size
1 jne short 16 0x401000 body 0x100 => no size
1 jne short 16 0x401000 body 0x10000 => no size
1 jne short 16 0x401000 body 0x80000000 => no size
1 jmp near 16 0x401000 body 1 => no size
1 jmp near 16 0x401000 body 0x100 => no size
1 jmp near 16 0x401000 body 0x10000 => no size
1 jmp near 16 0x401000 body 0x80000000 => no size
1 call near 16 0x401000 body 1 => no size
1 call near 16 0x401000 body 0x100 => no size
1 call near 16 0x401000 body 0x10000 => no size
1 call near 16 0x401000 body 0x80000000 => no size
1 call short 32 0x401000 => no size
1 jne short 32 0x401000 body 1 => no size
1 jne short 32 0x401000 body 0x100 => no size
1 jne short 32 0x401000 body 0x10000 => no size
1 jne short 32 0x401000 body 0x80000000 => no size
1 jmp near 32 0x401000 body 1 => no size
1 jmp near 32 0x401000 body 0x100 => no size
1 jmp near 32 0x401000 body 0x10000 => no size
1 jmp near 32 0x401000 body 0x80000000 => no size
1 call near 32 0x401000 body 1 => no size
1 call near 32 0x401000 body 0x100 => no size
1 call near 32 0x401000 body 0x10000 => no size
1 call near 32 0x401000 body 0x80000000 => no size
bits 64
1 call short 64 0x401000 => no size
1 jne short 64 0x401000 body 1 => no size
1 jne short 64 0x401000 body 0x100 => no size
1 jne short 64 0x401000 body 0x10000 => no size
1 jne short 64 0x401000 body 0x80000000 => no size
1 jmp near 64 0x401000 body 1 => no size
1 jmp near 64 0x401000 body 0x100 => no size
1 jmp near 64 0x401000 body 0x10000 => no size
1 jmp near 64 0x401000 body 0x80000000 => no size
1 call near 64 0x401000 body 1 => no size
1 call near 64 0x401000 body 0x100 => no size
1 call near 64 0x401000 body 0x10000 => no size
1 call near 64 0x401000 body 0x80000000 => no size
1 plain 0x001 => no size
1 plain 0x101 => no size
1 plain 0x201 => no size
1 plain 0x310 => no size
1 plain 0x410 => no size
1 plain 0x504 => no size
1 plain 0x50C => no size
1 plain 0x510 => no size
1 plain 0x600 => no size
1 plain 0x10000 => no size
1 plain 0x80000500 => no size
1 memory 0x010 32 0x401000 => no size
1 memory 0x110 32 0x401000 => no size
1 memory 0x210 32 0x401000 => no size
1 memory 0x400 32 0x401000 => no size
1 memory 0x10000 32 0x401000 => no size
1 memory 0x80000300 32 0x401000 => no size
1 memory 0x010 64 0x401000 => no size
1 memory 0x110 64 0x401000 => no size
1 memory 0x210 64 0x401000 => no size
1 memory 0x400 64 0x401000 => no size
1 memory 0x10000 64 0x401000 => no size
1 memory 0x80000300 64 0x401000 => no size
bits 16
1 push 8 => no size
1 pop 8 => no size
1 step 0 => no size
1 load 0 16 0x401000 => no size
1 load 0 32 0x401000 => no size
1 load 0 64 0x401000 => no size
bits 32
1 push 8 => no size
1 pop 8 => no size
1 step 0 => no size
1 load 0 16 0x401000 => no size
1 load 0 32 0x401000 => no size
1 load 0 64 0x401000 => no size
bits 64
1 load 0 16 0x401000 => no size
1 store 0 16 0x401000 => no size
1 address 0 16 0x401000 => no size
1 compare 0 16 0x401000 => no size
bits 16
1 other => no size
bits 32
1 other => no size
bits 64
1 other => no size
";

// Lines that are no instructions, and what is wrong with those that cannot be read.
pub const LINES: &str = "
 => nothing
  \t => nothing
# => nothing
  # 1 nop => nothing
#bits 48 => nothing
bits 16 => bits 16
at 0 => at 0
at 007 => at 7
at 0xaBc => at 2748
 at 18446744073709551615 => at 18446744073709551615
at\t0xFFFFFFFFFFFFFFFF  => at 18446744073709551615
at => the line ends where a number is wanted
1 => the line ends where a mnemonic is wanted
1 jmp => the line ends where a form is wanted
1 jmp far 64 2 => form far is neither short nor near
1 call near => the line ends where a number is wanted
1 load 3 64 => the line ends where a number is wanted
1 jo near 64 2 body => the line ends where a number is wanted
1 jmp near 64 2 3 => unexpected 3
1 nop 3 => unexpected 3
bits 16 32 => unexpected 32
x nop => x is no number of 64 bits
at 0x => 0x is no number of 64 bits
at 0X1 => 0X1 is no number of 64 bits
at -1 => -1 is no number of 64 bits
at +1 => +1 is no number of 64 bits
at 0x+1 => 0x+1 is no number of 64 bits
at 12a => 12a is no number of 64 bits
at 1_000 => 1_000 is no number of 64 bits
at 18446744073709551616 => 18446744073709551616 is no number of 64 bits
at 0x10000000000000000 => 0x10000000000000000 is no number of 64 bits
1 push 256 => 256 is above 255
1 plain 0x100000000 => 4294967296 is above 4294967295
1 jmp near 48 2 => width 48 is none of 16, 32 and 64
1 JMP near 64 2 => JMP is no mnemonic
bits 48 => no such bitness
";
