//! The pages of `--help` and `--version`.

ghost use Rattle.std.specs.Prelude.{◌≡◌, ◌∷◌, [], ◌++◌, None, Some, IfOk, MatchOption, OnOk, codes, map};
ghost use Rattle.std.specs.List.{flat_map};
ghost use Rattle.std.specs.Option.{option_map};
ghost use Rattle.hs_io.specs.Spelling.{ended, spaced};
ghost use Rattle.job_words.specs.Job.{row_named};
ghost use Rattle.job_words.specs.Table.{row_of};
ghost use Rattle.hsdec_program.specs.Pages.{
  answers_text,
  command_page,
  form_lines,
  example_line,
  form_words,
  group_lines,
  help_page,
  help_page_of,
  lines_within,
  making_line,
  operand_lines,
  option_lines,
  page_asked,
  title_line,
  usage_text,
};
ghost use Rattle.hsdec_program.specs.Phrases.{example_of, making_of, operand_word, option_words};

use crate::groups::{Group, command_group, heading, is_same};
use crate::phrases::{
    example, making, operand_name, operand_text, option_name, option_text, phrase,
};
use job_words::{Command, CommandOption, Form, OperandKind, Words, built_forms, form_named};
use std::alloc::{AllocError, Global};

/// The version of the program.
const VERSION: &[u8] = b"hsdec 0.1.0\n";

/// How the program is called.
const USAGE: &[u8] = b"Usage:
  hsdec COMMAND OPERAND.. OPTION..
  hsdec --help
  hsdec --help COMMAND
  hsdec --version
";

/// The groups of commands, in the order in which the page lists them.
const GROUPS: &[Group] = &[
    Group::Look,
    Group::Split,
    Group::Code,
    Group::Run,
    Group::Make,
];

/// The operands of all commands, in the order in which the page explains them.
const OPERANDS: &[OperandKind] = &[
    OperandKind::File,
    OperandKind::Net,
    OperandKind::Symbols,
    OperandKind::Part,
    OperandKind::Parts,
    OperandKind::Cover,
    OperandKind::Split,
    OperandKind::J,
    OperandKind::Seed,
    OperandKind::A,
    OperandKind::B,
    OperandKind::K,
];

/// The options of all commands.
const OPTIONS: &[CommandOption] = &[
    CommandOption::Limit,
    CommandOption::Reduce,
    CommandOption::Start,
    CommandOption::Fill,
    CommandOption::Names,
    CommandOption::Clock,
    CommandOption::Model,
];

/// The answers by their numbers, with what to do.
const ANSWERS: &[u8] = b"
Exit status, and what to do:
  0   the text was written whole
  1   the machine has no decomposition of that kind: another kind may exist
  2   the words are refused; word 1 is the command: see hsdec --help COMMAND
  3   the text of the machine is refused, at the line that is named
  4   two rows of the machine conflict; rows are counted from 1
  5   the machine leaves something open: --fill hold fills it
  7   there are more than the limit: --limit takes up to 10,000
  8   a partition is refused, or two states are together in all; parts and
      labels are counted from 0
  9   the codes have more than 64 bits: serial or cascade often need fewer
      than parallel; or a register more than 12
  10  the text of the network is refused, at the line that is named
  11  a start or a symbol is refused: --start gives the latches first values
  12  a file cannot be read
  13  a file is longer than 4,194,304 bytes
  14  the text could not be written whole
  15  memory ran out
  17  least needs a machine of 3 to 8 states: --reduce may leave fewer
  18  the cover is refused; blocks, and places within one, are counted from 0
  19  the machine is not definite: two states that show it are named
  20  no word of as many symbols as the order ends in the reset state: --reduce
      can help
  21  the machine has more than 8 inputs
  22  more than 256 outputs occur
  23  the split has no such part, or the part no bits; or the machine would have
      more than 32 inputs, or a name of more than 64 bytes
  24  the clock is the name of a signal of the network: another name will do
  6 and 16 are not used
";

/// The page that the words ask for: `--help` or `--version` alone, or `--help` with a command.
pub fn page_of(alloc: Global, words: &Words) -> Result<Option<Vec<u8>>, AllocError>
    ensures { IfOk result (λ page. MatchOption page (page_asked words.now ≡ None)
        (λ text. page_asked words.now ≡ Some text.items)) }
{
    let count = words.count();
    if count == 1 {
        return lone_page(alloc, words.word(0));
    }
    if count == 2 {
        return paired_page(alloc, words.word(0), words.word(1));
    }
    Ok(None)
}

/// The page that a lone word asks for.
fn lone_page(alloc: Global, word: &[u8]) -> Result<Option<Vec<u8>>, AllocError>
    ensures { IfOk result (λ page. MatchOption page (page_asked (word.now ∷ []) ≡ None)
        (λ text. page_asked (word.now ∷ []) ≡ Some text.items)) }
{
    if word == b"--help".as_slice() {
        return Ok(Some(help(alloc)?));
    }
    if word == b"--version".as_slice() {
        return Ok(Some(Vec::from_slice(alloc, VERSION)?));
    }
    Ok(None)
}

/// The page that two words ask for.
fn paired_page(alloc: Global, first: &[u8], second: &[u8]) -> Result<Option<Vec<u8>>, AllocError>
    ensures { IfOk result (λ page. MatchOption page (page_asked (first.now ∷ second.now ∷ []) ≡ None)
        (λ text. page_asked (first.now ∷ second.now ∷ []) ≡ Some text.items)) }
{
    if first == b"--help".as_slice() {
        return page_about(alloc, built_forms(), second);
    }
    Ok(None)
}

/// The page about the command of a word, if the word names one of these commands.
fn page_about(alloc: Global, forms: &[Form], word: &[u8]) -> Result<Option<Vec<u8>>, AllocError>
    ensures { let asked = option_map command_page (row_named (map row_of forms.now) word.now) in
        IfOk result (λ page. MatchOption page (asked ≡ None) (λ text. asked ≡ Some text.items)) }
{
    match form_named(forms, word) {
        Some(form) => Ok(Some(form_page(alloc, form)?)),
        None => Ok(None),
    }
}

/// The page about the whole program.
fn help(alloc: Global) -> Result<Vec<u8>, AllocError>
    ensures { IfOk result (λ page. page.items ≡ help_page) }
{
    help_on(alloc, built_forms(), GROUPS, OPERANDS, OPTIONS)
}

/// The page about these commands, in these groups, and about operands and options.
fn help_on(
    alloc: Global,
    forms: &[Form],
    groups: &[Group],
    operands: &[OperandKind],
    options: &[CommandOption],
) -> Result<Vec<u8>, AllocError>
    ensures { IfOk result
        (λ page. page.items ≡ help_page_of (map row_of forms.now) groups.now operands.now options.now) }
{
    let mut page = Vec::from_slice(alloc, usage())?;
    append_groups(&mut page, forms, groups)?;
    append_line(&mut page, b"")?;
    append_line(&mut page, b"Operands and options:")?;
    append_operands(&mut page, operands)?;
    append_options(&mut page, options)?;
    page.extend_from_slice(answers())?;
    Ok(page)
}

/// How the program is called.
fn usage() -> &'static [u8]
    ensures { result.now ≡ usage_text }
{
    USAGE
}

/// The answers by their numbers, with what to do.
fn answers() -> &'static [u8]
    ensures { result.now ≡ answers_text }
{
    ANSWERS
}

/// The page about a command.
fn form_page(alloc: Global, form: &Form) -> Result<Vec<u8>, AllocError>
    ensures { IfOk result (λ page. page.items ≡ command_page (row_of form.now)) }
{
    let mut page = Vec::new(alloc);
    append_title(&mut page, form.command)?;
    append_line(&mut page, b"")?;
    append_form_words(&mut page, form)?;
    append_line(&mut page, b"")?;
    append_line(&mut page, b"")?;
    append_operands(&mut page, form.operands)?;
    append_options(&mut page, form.options)?;
    append_line(&mut page, b"")?;
    append_examples(&mut page, form.command)?;
    Ok(page)
}

/// Appends the first line of a page: what the command does.
fn append_title(page: &mut Vec<u8>, command: Command) -> Result<(), AllocError>
    ensures { OnOk result (page.new.items ≡ page.old.items ++ title_line command) }
{
    page.extend_from_slice(command.word())?;
    append_spaced(page, phrase(command))?;
    page.push(b'\n')?;
    Ok(())
}

/// Appends the examples of a command: the line that makes the file of the other, if there is one, and the other.
fn append_examples(page: &mut Vec<u8>, command: Command) -> Result<(), AllocError>
    ensures { OnOk result (page.new.items ≡ page.old.items ++ ended (codes "Example:")
        ++ making_line (making_of command) ++ example_line (example_of command)) }
{
    append_line(page, b"Example:")?;
    if let Some(words) = making(command) {
        append_example(page, words)?;
    }
    append_example(page, example(command))
}

/// Appends the lines of commands, group by group.
fn append_groups(page: &mut Vec<u8>, forms: &[Form], groups: &[Group]) -> Result<(), AllocError>
    ensures { OnOk result
        (page.new.items ≡ page.old.items ++ flat_map (group_lines (map row_of forms.now)) groups.now) }
{
    for group in groups {
        append_group(page, forms, *group)?;
    }
    Ok(())
}

/// Appends the lines of a group.
fn append_group(page: &mut Vec<u8>, forms: &[Form], group: Group) -> Result<(), AllocError>
    ensures { OnOk result (page.new.items ≡ page.old.items ++ group_lines (map row_of forms.now) group) }
{
    append_line(page, b"")?;
    append_line(page, heading(group))?;
    append_forms(page, forms, group)
}

/// Appends the lines of the commands of a group.
fn append_forms(page: &mut Vec<u8>, forms: &[Form], group: Group) -> Result<(), AllocError>
    ensures { OnOk result (page.new.items ≡ page.old.items ++ flat_map (lines_within group) (map row_of forms.now)) }
{
    for form in forms {
        append_within(page, form, group)?;
    }
    Ok(())
}

/// Appends the lines of a command if it is in the group.
fn append_within(page: &mut Vec<u8>, form: &Form, group: Group) -> Result<(), AllocError>
    ensures { OnOk result (page.new.items ≡ page.old.items ++ lines_within group (row_of form.now)) }
{
    if is_same(group, command_group(form.command)) {
        return append_form(page, form);
    }
    Ok(())
}

/// Appends the lines of a command: its words, and what it does.
fn append_form(page: &mut Vec<u8>, form: &Form) -> Result<(), AllocError>
    ensures { OnOk result (page.new.items ≡ page.old.items ++ form_lines (row_of form.now)) }
{
    append_form_words(page, form)?;
    page.extend_from_slice(b"\n      ")?;
    append_line(page, phrase(form.command))
}

/// Appends the words of a command: its own, its operands and its options.
fn append_form_words(page: &mut Vec<u8>, form: &Form) -> Result<(), AllocError>
    ensures { OnOk result (page.new.items ≡ page.old.items ++ form_words (row_of form.now)) }
{
    page.extend_from_slice(b"  hsdec ")?;
    page.extend_from_slice(form.command.word())?;
    append_operand_names(page, form.operands)?;
    append_option_names(page, form.options)
}

/// Appends the line of an example.
fn append_example(page: &mut Vec<u8>, words: &[u8]) -> Result<(), AllocError>
    ensures { OnOk result (page.new.items ≡ page.old.items ++ example_line words.now) }
{
    page.extend_from_slice(b"  hsdec ")?;
    append_line(page, words)
}

/// Appends the names of operands, each after a space.
fn append_operand_names(page: &mut Vec<u8>, operands: &[OperandKind]) -> Result<(), AllocError>
    ensures { OnOk result
        (page.new.items ≡ page.old.items ++ flat_map (λ kind. spaced (operand_word kind)) operands.now) }
{
    for operand in operands {
        append_spaced(page, operand_name(*operand))?;
    }
    Ok(())
}

/// Appends the names of options, each after a space.
fn append_option_names(page: &mut Vec<u8>, options: &[CommandOption]) -> Result<(), AllocError>
    ensures { OnOk result
        (page.new.items ≡ page.old.items ++ flat_map (λ option. spaced (option_words option)) options.now) }
{
    for option in options {
        append_spaced(page, option_name(*option))?;
    }
    Ok(())
}

/// Appends a line for each operand.
fn append_operands(page: &mut Vec<u8>, operands: &[OperandKind]) -> Result<(), AllocError>
    ensures { OnOk result (page.new.items ≡ page.old.items ++ operand_lines operands.now) }
{
    for operand in operands {
        append_line(page, operand_text(*operand))?;
    }
    Ok(())
}

/// Appends a line for each option.
fn append_options(page: &mut Vec<u8>, options: &[CommandOption]) -> Result<(), AllocError>
    ensures { OnOk result (page.new.items ≡ page.old.items ++ option_lines options.now) }
{
    for option in options {
        append_line(page, option_text(*option))?;
    }
    Ok(())
}

/// Appends a text after a space.
fn append_spaced(page: &mut Vec<u8>, text: &[u8]) -> Result<(), AllocError>
    ensures { OnOk result (page.new.items ≡ page.old.items ++ spaced text.now) }
{
    page.push(b' ')?;
    page.extend_from_slice(text)
}

/// Appends a text as a line.
fn append_line(page: &mut Vec<u8>, text: &[u8]) -> Result<(), AllocError>
    ensures { OnOk result (page.new.items ≡ page.old.items ++ ended text.now) }
{
    page.extend_from_slice(text)?;
    page.push(b'\n')?;
    Ok(())
}
