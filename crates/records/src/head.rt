// How a table and a schedule both begin: behind the length's two bytes the version.
pub const VERSION: usize = 2;
