ghost use Rattle.std.specs.Prelude.{◌≡◌, ◌⊎◌, List, ℕ};
ghost use Rattle.blob_codec.specs.declared.blob.Attr.{Attr};
ghost use Rattle.blob_codec.specs.declared.blob_error.BlobError.{BlobError};
ghost use Rattle.blob_codec.specs.Blob.{SpellsBlob};
ghost use Rattle.blob_codec.specs.Fault.{IsBlobFault};
ghost use Rattle.blob_codec.specs.Limits.{FitsBlob};
ghost use Rattle.blob_codec.specs.Written.{written};

/// Bytes are the blob of at most one list of attributes.
pub fn one_reading()
    ensures { (bytes : List ℕ) (attrs others : List Attr) → SpellsBlob bytes attrs →
        SpellsBlob bytes others → others ≡ attrs }
{}

/// Bytes have at most one first fault.
pub fn one_fault()
    ensures { (bytes : List ℕ) (error other : BlobError) → IsBlobFault bytes error →
        IsBlobFault bytes other → other ≡ error }
{}

/// Bytes that have a fault are no blob.
pub fn no_reading_with_fault()
    ensures { (bytes : List ℕ) (error : BlobError) (attrs : List Attr) → IsBlobFault bytes error →
        SpellsBlob bytes attrs → ⊥ }
{}

/// Bytes are a blob or have a first fault: so they are a blob exactly where they have no fault.
pub fn reading_or_fault()
    ensures { (bytes : List ℕ) →
        ((attrs : List Attr) × SpellsBlob bytes attrs)
        ⊎ ((error : BlobError) × IsBlobFault bytes error) }
{}

/// What is written is a blob of what was to be written, and of nothing else.
pub fn written_reads_back()
    ensures spells { (attrs : List Attr) → FitsBlob attrs → SpellsBlob (written attrs) attrs }
    ensures only { (attrs others : List Attr) → FitsBlob attrs →
        SpellsBlob (written attrs) others → others ≡ attrs }
{}
