//! Making a field.
ghost use Rattle.std.specs.Prelude.{◌≡◌, [], string_bytes};
ghost use Rattle.lower.specs.TypeTrees.{field};
ghost use Rattle.lower.specs.TypeViews.{type_view, field_view, pairs_of};

use super::{DataType, Field, Metadata};

impl Field {
    /// Returns a field without metadata. It allocates nothing.
    pub fn new(name: String, data_type: DataType, is_nullable: bool) -> Field
        ensures { field_view result ≡ field (string_bytes name) (type_view data_type) is_nullable [] }
    {
        let metadata = Metadata::new(*name.allocator());
        Field {
            name,
            data_type,
            is_nullable,
            metadata,
        }
    }

    /// Returns the field with its metadata replaced. It allocates nothing.
    pub fn with_metadata(self, metadata: Metadata) -> Field
        ensures { field_view result ≡ field (string_bytes self.name) (type_view self.data_type) self.is_nullable (pairs_of metadata.entries) }
    {
        let Field {
            name,
            data_type,
            is_nullable,
            ..
        } = self;
        Field {
            name,
            data_type,
            is_nullable,
            metadata,
        }
    }
}
