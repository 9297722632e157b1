//! The capacities of the lists of the table services.

/// How many elements the lists of the table services have room for.
#[derive(Clone, Copy, Debug)]
pub struct TableCapacities {
    /// Seats.
    pub seats: usize,
    /// Stored files.
    pub files: usize,
    /// File buffers without a file.
    pub spare_files: usize,
    /// Bytes in each file buffer: those of the stored files come first.
    pub file_buffers: [usize; 8],
    /// Tables of a seat.
    pub tables: usize,
    /// Pairs of image buffers that no table of the seat uses.
    pub spare_images: usize,
    /// Bytes in each image buffer of a seat, in pairs of active and waiting image: those of the tables come first.
    pub image_buffers: [usize; 4],
}
