// The finder: the part of a file that holds an element.
ghost use Rattle.std.specs.Prelude.{◌≡◌, ◌+◌};
ghost use Rattle.table_lines.specs.Lines.{Found};
ghost use Rattle.reader_spec.specs.Finder as Finder;

use table_lines::Line;

// What the tag table says of the element of a signature: its offset and its size. There is no such line where the reader refuses the file, and where
// the tag is absent.
pub fn find_line(file: &[u8], signature: [u8; 4]) -> Option<Line>
    ensures { Found signature result (Finder.found file.now signature) }
{
    match crate::read(file) {
        Ok(_) => table_lines::line_of(file, signature),
        Err(_) => None,
    }
}

// The caller's own part of the file that holds the element of a signature, without padding. It is empty where the reader refuses the file, and
// where the tag is absent.
pub fn find(file: &[u8], signature: [u8; 4]) -> &[u8]
    ensures result_value { result.now ≡ Finder.find file.now signature }
    ensures ref_ptr_value { (result.ref_ptr.0 ≡ file.entry.ref_ptr.0) × (result.ref_ptr.1 ≡ file.entry.ref_ptr.1 + (Finder.found file.now signature).offset) }
{
    match find_line(file, signature) {
        Some(line) => {
            let offset = line.offset as usize;
            &file[offset..offset + line.size as usize]
        }
        None => &file[..0],
    }
}
