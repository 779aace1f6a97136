//! The greatest sizes, which several layers try. A file longer than its limit is read no further, and refused as too long.

/// Bytes of a module's text.
pub const MODULE_BYTES: usize = 1 << 20;

/// How deep brackets, blocks, elements and the like may nest in a module's text.
pub const NESTING: u32 = 32;

/// Modules of an application.
pub const MODULES: usize = 256;

/// Dollar sites of a module.
pub const DOLLAR_SITES: usize = 4096;

/// Bytes of a built file.
pub const BUILT_FILE_BYTES: usize = 16 << 20;

/// Bytes of `build/index.json`.
pub const INDEX_BYTES: usize = 128 << 20;

/// Bytes of a page.
pub const PAGE_BYTES: usize = 64 << 20;

/// Bytes of a script.
pub const SCRIPT_BYTES: usize = 1 << 20;

/// Items of a script.
pub const SCRIPT_ITEMS: usize = 65_536;
