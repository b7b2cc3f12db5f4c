//! The lines of texts, each a stretch of its text with its place.
ghost use Rattle.std.specs.Prelude.{◌≡◌, ◌++◌, ◌∷◌, ◌≤◌, ◌<◌, map, option_map, length, IfOk, IfSome, OnOk, All};
ghost use Rattle.st_asm.specs.Labels.{numbered, lines_of, located};
ghost use Rattle.st_asm.specs.Reading.{lines_in, located_views, IsShort};

use st_base::line::Line;
use std::alloc::{AllocError, Global};

/// A line of a file, without its line feed.
#[derive(Clone, Copy, Debug)]
pub(crate) struct Located<'a> {
    pub line: Line,
    pub text: &'a [u8],
}

/// The first line of a text, and what follows its line feed.
#[tactic(auto, using(crate::proofs::LineCuts::onto_line_nothing, crate::proofs::LineCuts::onto_line_more, crate::proofs::LineCuts::onto_line_cut, crate::proofs::LineCuts::onto_line_end))]
fn cut_line(text: &[u8]) -> (&[u8], Option<&[u8]>)
    ensures cut { lines_of text.now ≡ result.0.now ∷ lines_in (option_map (λ r. r.now) result.1) }
    ensures shorter { IfSome result.1 (λ r. length r.now < length text.now) }
{
    for (i, byte) in text.iter().enumerate() {
        if *byte == b'\n' {
            return (&text[..i], Some(&text[i + 1..]));
        }
    }
    (text, None)
}

/// Adds the lines of a file.
fn add_lines<'a>(found: &mut Vec<Located<'a>>, file: u32, text: &'a [u8]) -> Result<(), AllocError>
    requires { length text.now ≤ 1048576 }
    ensures { OnOk result (located_views found.new.items ≡ located_views found.old.items ++ numbered file 1 (lines_of text.now)) }
{
    let mut rest = Some(text);
    let mut line = 1;
    while let Some(left) = rest {
        let (first, behind) = cut_line(left);
        found.push(Located {
            line: Line { file, line },
            text: first,
        })?;
        rest = behind;
        line += 1;
    }
    Ok(())
}

/// The lines of all files. Files and lines are counted from 1.
pub(crate) fn lines_of<'a>(
    alloc: Global,
    texts: &'a [Vec<u8>],
) -> Result<Vec<Located<'a>>, AllocError>
    requires few { length texts.now ≤ 64 }
    requires short { All IsShort texts.now }
    ensures { IfOk result (λ found. located_views found.items ≡ located 1 (map (λ t. t.items) texts.now)) }
{
    let mut found = Vec::new(alloc);
    let mut file = 1;
    for text in texts {
        add_lines(&mut found, file, text.as_slice())?;
        file += 1;
    }
    Ok(found)
}
