//! Schemas.
//!
//! The columns of a schema are its fields, in order; several may have the same name (Arrow columnar
//! format, "Schema message").
ghost use Rattle.std.specs.Prelude.{◌≡◌, IfErr, IfOk, [], length, map};

use super::bits::fields_as_bits;
use super::clones::clone_metadata;
use super::columns::ProjectError;
use super::normal::normal_fields;
use super::{Field, Metadata};
use std::alloc::{AllocError, Global};

/// The fields of a table in the order of its columns, and key-value metadata.
#[derive(Debug, Drop, PartialEq, Eq)]
pub struct Schema {
    pub fields: Vec<Field>,
    pub metadata: Metadata,
}

impl Schema {
    ghost use Rattle.lower.specs.TypeViews.{schema_view, field_view, fields_view, pairs_of};
    ghost use Rattle.lower.specs.Normal.{norm_schema};
    ghost use Rattle.lower.specs.FloatBits.{schema_as_bits};
    ghost use Rattle.lower.specs.Columns.{index_of, FieldsAt, ProjectCause};

    /// Returns the schema with each field in normal form, and its own metadata unchanged.
    ///
    /// Applying it twice gives the same as once. It fails only if an allocation fails.
    pub fn normal(&self) -> Result<Schema, AllocError>
        ensures normal { IfOk result (λ n. schema_view n ≡ norm_schema (schema_view self.now)) }
        ensures stable { IfOk result (λ n. norm_schema (schema_view n) ≡ schema_view n) }
    {
        let fields = normal_fields(&self.fields)?;
        let metadata = clone_metadata(&self.metadata)?;
        Ok(Schema { fields, metadata })
    }

    /// Returns the schema with its metadata replaced. It allocates nothing.
    pub fn with_metadata(self, metadata: Metadata) -> Schema
        ensures { schema_view result ≡ (fields_view self.fields.items, pairs_of metadata.entries) }
    {
        let Schema { fields, .. } = self;
        Schema { fields, metadata }
    }

    /// Returns the schema with each float type, at any depth, as the unsigned integer of its width.
    ///
    /// All else is kept: names, nullability, metadata, and which types are dictionaries. A reader
    /// whose metadata has this schema reads float columns as their bits. It fails only if an
    /// allocation fails.
    pub fn with_floats_as_bits(&self, alloc: Global) -> Result<Schema, AllocError>
        ensures { IfOk result (λ s. schema_view s ≡ schema_as_bits (schema_view self.now)) }
    {
        Ok(Schema {
            fields: fields_as_bits(alloc, &self.fields)?,
            metadata: clone_metadata(&self.metadata)?,
        })
    }

    /// Returns the index of the first column of this name. It allocates nothing.
    pub fn index_of(&self, name: &str) -> Option<usize>
        ensures { result ≡ index_of self.now.fields.items name.now }
    {
        self.fields
            .iter()
            .position(|field| field.name.as_str() == name)
    }

    /// Returns the schema of the columns at these indices, in this order, with the metadata of the
    /// schema.
    ///
    /// An index may be repeated. The errors are
    ///
    /// - `Missing(i)`: index `i` of the indices is that of no column, and those before are of
    ///   columns;
    /// - `Memory`: an allocation failed.
    pub fn project(&self, alloc: Global, indices: &[usize]) -> Result<Schema, ProjectError>
        ensures fields { let fields = map field_view self.now.fields.items in
            IfOk result (λ s. FieldsAt fields indices.now (map field_view s.fields.items)) }
        ensures metadata { let kept = pairs_of self.now.metadata.entries in
            IfOk result (λ s. pairs_of s.metadata.entries ≡ kept) }
        ensures error { let n = length self.now.fields.items in
            IfErr result (ProjectCause n indices.now) }
    {
        let mut fields = Vec::new(alloc);
        for (i, index) in indices.iter().enumerate() {
            let Some(field) = self.fields.get(*index) else {
                return Err(ProjectError::Missing(i));
            };
            fields.push(field.clone()?)?;
        }
        let kept = clone_metadata(&self.metadata)?;
        Ok(Schema {
            fields,
            metadata: kept,
        })
    }
}

impl From<Vec<Field>> for Schema {
    ghost use Rattle.lower.specs.TypeViews.{schema_view, fields_view};

    ghost from_gives = { λ fields schema. schema_view schema ≡ (fields_view fields.items, []) };

    /// Returns a schema of these fields without metadata. It allocates nothing.
    fn from(fields: Vec<Field>) -> Schema {
        let metadata = Metadata::new(*fields.allocator());
        Schema { fields, metadata }
    }
}
