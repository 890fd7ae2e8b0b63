//! The words of the language of scripts.
ghost use Rattle.std.specs.Prelude.{◌≡◌, bytes_eq, find, length};
ghost use Rattle.ce_text.specs.Table.{table_value};
ghost use Rattle.ce_script.specs.Verbs.{verbs, verb_word, form_of};

use ce_text::look_up;

/// What a statement begins with.
#[derive(Clone, Copy)]
pub enum Verb {
    Machine,
    Image,
    User,
    Getcube,
    Peek,
    Freecube,
    Spawn,
    Kill,
    Send,
    Run,
    Recv,
    Dump,
    Trace,
}

/// How the body of an image is written.
#[derive(Clone, Copy)]
pub enum ImageForm {
    /// Instruction words, of `INSTRUCTION_DIGITS` hexadecimal digits each.
    Hex,
    /// An assembly text.
    Asm,
    /// The image's bytes in RKI1, as hexadecimal digits.
    Rki,
}

/// All verbs.
const VERBS: [Verb; 13] = [
    Verb::Machine,
    Verb::Image,
    Verb::User,
    Verb::Getcube,
    Verb::Peek,
    Verb::Freecube,
    Verb::Spawn,
    Verb::Kill,
    Verb::Send,
    Verb::Run,
    Verb::Recv,
    Verb::Dump,
    Verb::Trace,
];

/// The words that name the forms of images.
const FORMS: [(&str, ImageForm); 3] = [
    ("hex", ImageForm::Hex),
    ("asm", ImageForm::Asm),
    ("rki", ImageForm::Rki),
];

/// What a statement with this first word is.
#[tactic(auto, using(crate::proofs::VerbWords::found_by_word), unfolding(crate::specs::Verbs::verbs))]
pub fn verb_of(word: &[u8]) -> Option<Verb>
    ensures { result ≡ table_value verbs word.now }
{
    verb_among(&VERBS, word)
}

/// The verb among these that has the word.
fn verb_among(verbs: &[Verb], word: &[u8]) -> Option<Verb>
    ensures { result ≡ find (λ verb. bytes_eq (verb_word verb) word.now) verbs.now }
{
    verbs
        .iter()
        .find(|verb| verb.word().as_bytes() == word)
        .copied()
}

/// The form that a word names.
#[tactic(auto, unfolding(crate::specs::Verbs::form_of))]
pub fn form_of(word: &[u8]) -> Option<ImageForm>
    ensures { result ≡ form_of word.now }
{
    look_up(&FORMS, word)
}

impl Verb {
    ghost use Rattle.ce_script.specs.Verbs.{is_image, is_command, verb_operands};

    /// Its word.
    pub fn word(self) -> &'static str
        ensures { result.now ≡ verb_word self }
    {
        match self {
            Verb::Machine => "machine",
            Verb::Image => "image",
            Verb::User => "user",
            Verb::Getcube => "getcube",
            Verb::Peek => "peek",
            Verb::Freecube => "freecube",
            Verb::Spawn => "spawn",
            Verb::Kill => "kill",
            Verb::Send => "send",
            Verb::Run => "run",
            Verb::Recv => "recv",
            Verb::Dump => "dump",
            Verb::Trace => "trace",
        }
    }

    /// How many words belong behind it.
    pub fn operand_count(self) -> usize
        ensures { result ≡ length (verb_operands self) }
    {
        match self {
            Verb::Peek | Verb::Freecube | Verb::Trace => 0,
            Verb::Machine | Verb::User | Verb::Getcube | Verb::Run | Verb::Recv => 1,
            Verb::Image | Verb::Kill | Verb::Dump => 2,
            Verb::Spawn | Verb::Send => 3,
        }
    }

    /// Whether it begins an image.
    pub fn is_image(self) -> bool
        ensures { result ≡ is_image self }
    {
        matches!(self, Verb::Image)
    }

    /// Whether it begins a command.
    pub fn is_command(self) -> bool
        ensures { result ≡ is_command self }
    {
        !matches!(self, Verb::Machine | Verb::Image | Verb::User)
    }
}
