//! Columns by their names, and projections.

use lower::datatypes::{DataType, Field, Metadata, NameError, ProjectError, Schema, columns_named};
use std::alloc::{AllocError, Global};
use std::test::Fail;

// The pair `k` = `v`.
fn pair(alloc: Global) -> Result<Metadata, AllocError> {
    let mut pairs = Metadata::new(alloc);
    pairs.insert("k".to_string(alloc)?, "v".to_string(alloc)?)?;
    Ok(pairs)
}

fn field(alloc: Global, name: &str, data_type: DataType) -> Result<Field, AllocError> {
    Ok(Field::new(name.to_string(alloc)?, data_type, true))
}

// The field `b`, which has metadata and no nulls.
fn field_b(alloc: Global) -> Result<Field, AllocError> {
    let field = Field::new("b".to_string(alloc)?, DataType::Int16, false);
    Ok(field.with_metadata(pair(alloc)?))
}

// The columns `a`, `b`, another `a`, and one without a name.
fn make_schema(alloc: Global) -> Result<Schema, AllocError> {
    let mut fields = Vec::new(alloc);
    fields.push(field(alloc, "a", DataType::Int8)?)?;
    fields.push(field_b(alloc)?)?;
    fields.push(field(alloc, "a", DataType::Int32)?)?;
    fields.push(field(alloc, "", DataType::Utf8)?)?;
    Ok(Schema::from(fields).with_metadata(pair(alloc)?))
}

const INDICES: [(&str, Option<usize>); 6] = [
    ("a", Some(0)),
    ("b", Some(1)),
    ("", Some(3)),
    ("c", None),
    ("A", None),
    ("ab", None),
];

#[test]
fn first_column_of_a_name_is_found(rt: HostRuntime) -> Result<(), Fail> {
    let schema = make_schema(rt.alloc())?;
    for (name, index) in INDICES {
        assert_eq!(rt; schema.index_of(name), index, "{name}");
    }
    Ok(())
}

const NAMED: [(&[&str], Result<&[usize], NameError>); 8] = [
    (&[], Ok(&[])),
    (&["b"], Ok(&[1])),
    (&["", "a", "b"], Ok(&[3, 0, 1])),
    (&["c"], Err(NameError::Missing(0))),
    (&["a", "b", "c", "d"], Err(NameError::Missing(2))),
    (&["a", "b", "a"], Err(NameError::Repeated(2))),
    (&["a", "a", "c"], Err(NameError::Repeated(1))),
    (&["c", "a", "a"], Err(NameError::Missing(0))),
];

// Whether the columns of these names are the expected ones, or the error is.
fn are_named(
    alloc: Global,
    names: &[&str],
    expected: Result<&[usize], NameError>,
) -> Result<bool, NameError> {
    match (columns_named(alloc, &make_schema(alloc)?, names), expected) {
        (Err(NameError::Memory), _) => Err(NameError::Memory),
        (Ok(columns), Ok(expected)) => Ok(columns.as_slice() == expected),
        (Err(error), Err(expected)) => Ok(error == expected),
        _ => Ok(false),
    }
}

#[test]
fn columns_are_found_by_their_names(rt: HostRuntime) -> Result<(), Fail> {
    for (names, expected) in NAMED {
        assert!(rt; are_named(rt.alloc(), names, expected)?, "{names:?}");
    }
    Ok(())
}

// The indices of columns, and the text of their schema.
const PROJECTED: [(&[usize], Result<&str, ProjectError>); 6] = [
    (&[], Ok("")),
    (&[1], Ok("b: int16 not null")),
    (&[3, 0, 3], Ok(": string\na: int8\n: string")),
    (&[4], Err(ProjectError::Missing(0))),
    (&[0, 5, 4], Err(ProjectError::Missing(1))),
    (&[3, usize::MAX], Err(ProjectError::Missing(1))),
];

fn has_text(alloc: Global, schema: &Schema, text: &str) -> Result<bool, AllocError> {
    Ok(format!(in alloc; "{schema}")?.as_str() == text)
}

// Whether the columns at these indices have this text, or the error is the expected one.
fn are_projected(
    alloc: Global,
    indices: &[usize],
    expected: Result<&str, ProjectError>,
) -> Result<bool, ProjectError> {
    match (make_schema(alloc)?.project(alloc, indices), expected) {
        (Err(ProjectError::Memory), _) => Err(ProjectError::Memory),
        (Ok(schema), Ok(text)) => Ok(has_text(alloc, &schema, text)?),
        (Err(error), Err(expected)) => Ok(error == expected),
        _ => Ok(false),
    }
}

#[test]
fn columns_are_projected(rt: HostRuntime) -> Result<(), Fail> {
    for (indices, expected) in PROJECTED {
        assert!(rt;
            are_projected(rt.alloc(), indices, expected)?,
            "{indices:?}"
        );
    }
    Ok(())
}

// The schema of the columns `b` and the first `a`.
fn b_and_a(alloc: Global) -> Result<Schema, AllocError> {
    let mut fields = Vec::new(alloc);
    fields.push(field_b(alloc)?)?;
    fields.push(field(alloc, "a", DataType::Int8)?)?;
    Ok(Schema::from(fields).with_metadata(pair(alloc)?))
}

#[test]
fn projected_columns_keep_metadata(rt: HostRuntime) -> Result<(), Fail> {
    let alloc = rt.alloc();
    let projected = make_schema(alloc)?.project(alloc, &[1, 0])?;
    assert!(rt; projected == b_and_a(alloc)?);
    Ok(())
}
