// A text that is not too long to spell a trace.
ghost use Rattle.std.specs.Prelude.{◌≤◌, length};
ghost use Rattle.spelling.specs.Meaning.{longest};

// `spell` makes one where the text's length is tested; what reads the text takes the bound from here.
#[derive(Clone, Copy)]
pub struct Short<'a> {
    pub text: &'a [u8],
    ghost fits: { length text.now ≤ longest },
}
