// The columns of the register's tables.
ghost use Rattle.std.specs.Prelude.{◌≡◌};
ghost use Rattle.tables.specs.Columns.{object_row, link_row};
ghost use Rattle.register.specs.Tables.{cell_word};

// The id in an object's row.
pub fn id_of(objects: &[u32], row: u32) -> u32
    ensures { result ≡ (object_row objects.now row).id }
{
    rows::word(objects, tables::OBJECT_WIDTH, row, 0)
}

// The type in an object's row.
pub fn type_of(objects: &[u32], row: u32) -> u32
    ensures { result ≡ (object_row objects.now row).type }
{
    rows::word(objects, tables::OBJECT_WIDTH, row, 1)
}

// The word in a cell of an object's row; from cell 8 on, 0.
pub fn cell_of(objects: &[u32], row: u32, cell: u32) -> u32
    ensures { result ≡ cell_word objects.now row cell }
{
    if meaning::CELLS <= cell {
        return 0;
    }
    rows::word(objects, tables::OBJECT_WIDTH, row, 2 + cell)
}

// The relationship in a link's row.
pub fn relationship_of(links: &[u32], row: u32) -> u32
    ensures { result ≡ (link_row links.now row).relationship }
{
    rows::word(links, tables::LINK_WIDTH, row, 0)
}

// The source in a link's row.
pub fn source_of(links: &[u32], row: u32) -> u32
    ensures { result ≡ (link_row links.now row).source }
{
    rows::word(links, tables::LINK_WIDTH, row, 1)
}

// The target in a link's row.
pub fn target_of(links: &[u32], row: u32) -> u32
    ensures { result ≡ (link_row links.now row).target }
{
    rows::word(links, tables::LINK_WIDTH, row, 2)
}
