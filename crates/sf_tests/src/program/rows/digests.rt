//! SHA-256 digests, as another program computed them.

// Of nothing.
pub const EMPTY: &str = "e3b0c44298fc1c149afbf4c8996fb92427ae41e4649b934ca495991b7852b855";

// Of `abc`.
pub const ABC: &str = "ba7816bf8f01cfea414140de5dae2223b00361a396177a9cb410ff61f20015ad";

// Of `abZ`.
pub const ABZ: &str = "ab8561a32e5656a54cc12d4465b6544af3199ba878d49f0662a8bc96a17f3d20";

// Of `abcdef`.
pub const ABCDEF: &str = "bef57ec7f53a6d40beb640a780a639c83bc29ac8a9816f1fc6c5c6dcd93c4721";

// Of `cdef`.
pub const CDEF: &str = "9727bc3a31f5a09994a8408791a22db4b12502452e6e5d00a59a0ef8342b41cf";

// Of 512 bytes 0x41.
pub const BLOCK_OF_A: &str = "32beecb58a128af8248504600bd203dcc676adf41045300485655e6b8780a01d";

// Of 512 bytes 0x42.
pub const BLOCK_OF_B: &str = "4391da166394eb9d592a66cdb937c0aa011b9fd54cb2fa0e7f5c7a6648c6625a";

// Of 512 bytes 0x43.
pub const BLOCK_OF_C: &str = "2ab0e56ff48de274010e5f0c4dc6ce87c401f118a9f505fccb828856d078d0d2";

// Of 1,024 bytes 0x41.
pub const TWO_BLOCKS_OF_A: &str =
    "6ab72eeb9e77b07540897e0c8d6d23ec8eef0f8c3a47e1b3f4e93443d9536bed";

// Of the upload of 32,767 bytes 0x41, 0x42 and 0x43 each and 1,699 bytes 0x44.
pub const UPLOAD: &str = "07390491f53e4c40df979e4377a6abdeeb06bb6a365e87a7aadf33960b4c91a3";

// Of its first 32,768 bytes.
pub const UPLOAD_1: &str = "1b87ecbbbcc54e001dbaddff63a2b57856ea0e09f90adb20799ff6bdee203f71";

// Of the 32,768 bytes behind these.
pub const UPLOAD_2: &str = "99f5c4697d621d0eece44a31662b69b9d13c41ca7c7df175691164ac69cb978c";

// Of the 32,765 bytes behind these.
pub const UPLOAD_3: &str = "a9c5139a305a3af1d3768de126af1ce9fb77d075ded56a54abd4ea5159ef6f57";

// Of its last 1,699 bytes.
pub const UPLOAD_4: &str = "739dba14022015a5eea4a00d7cde662acd236cd5ba2a30274c148050bbb4ecc7";
