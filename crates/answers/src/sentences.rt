// The sentences of the refusals.
ghost use Rattle.std.specs.Prelude.{◌≡◌};
ghost use Rattle.answers.specs.Sentences as sentences;

// The sentence of a refusal's number, and none of a number that is no refusal's.
#[tactic(auto, unfolding(crate::specs::Sentences::sentence, crate::specs::Sentences::text_sentences, crate::specs::Sentences::register_sentences, crate::specs::Sentences::promotion_sentences,))]
pub fn sentence(number: u32) -> &'static [u8]
    ensures { result.now ≡ sentences.sentence number }
{
    match number {
        1 => b"There is no code in the text.",
        2 => b"The text is longer than 1,024 bytes.",
        3 => b"The code has more than 80 characters.",
        4 => b"A character is neither a letter A to Z nor a digit 2 to 7.",
        5 => b"No code has this many characters: some are missing or too many.",
        6 => b"The last character is wrong, or the end of the code is missing.",
        7 => b"The beginning of a code or unit cannot be read.",
        8 => b"A code or unit is of a kind or a length that is not permitted here.",
        9 => b"A code or unit is cut off: it is shorter than its beginning says.",
        10 => b"A composite or an ID cannot be joined.",
        11 => b"A unit to be joined has a length other than 64 bits.",
        12 => b"Two units are of the same kind.",
        13 => b"The DATA or the INSTANCE unit is missing.",
        14 => b"The SEMANTIC and the CONTENT unit do not match in subtype.",
        20 => b"This code is out already.",
        21 => b"No more can go out: 256 other codes are out.",
        22 => b"This code is not out.",
        23 => b"The register is damaged, or this is no register.",
        24 => b"This is no record of the log.",
        25 => b"A record is missing before this one.",
        26 => b"No record number is left: this register takes no more changes.",
        27 => b"The same codes are out, but the last record numbers differ.",
        36 => b"The log is torn: its last record is not whole.",
        37 => b"A code is out in one register only, or to another borrower.",
        _ => b"",
    }
}
