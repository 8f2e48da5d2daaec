//! What the pages say about commands, operands and options; each is a line without its line feed.

ghost use Rattle.std.specs.Prelude.{◌≡◌};
ghost use Rattle.std.specs.Option.{option_map};
ghost use Rattle.hsdec_program.specs.Phrases.{
  example_of,
  making_of,
  operand_note,
  operand_word,
  option_note,
  option_words,
  phrase_of,
};

use job_words::{Command, CommandOption, OperandKind};

/// What a command does.
pub fn phrase(command: Command) -> &'static [u8]
    ensures { result.now ≡ phrase_of command }
{
    match command {
        Command::Check => b"prints the counts of the machine, or the first fault of its text",
        Command::Reduce => b"prints the machine of the classes of states that no word tells apart",
        Command::Closed => b"lists the closed partitions",
        Command::Output => b"lists the closed partitions that the outputs respect",
        Command::Pairs => b"lists the Mm pairs",
        Command::Low => b"prints m(PART), the least partition that PART makes a pair with",
        Command::High => b"prints M(PART), the greatest partition that makes a pair with PART",
        Command::Code => b"writes the network in the natural code",
        Command::Assign => b"writes the network in the code of the given partitions",
        Command::Parallel => b"splits the machine into parts that run side by side",
        Command::Serial => b"splits the machine into a part and a second one that reads it",
        Command::Cascade =>
            b"splits the machine into a chain of parts, each reading those before it",
        Command::Feedback =>
            b"splits the machine into two parts that read each other as little as they can",
        Command::Walk => b"prints the machine's answers to a file of symbols",
        Command::Sim => b"prints a network's answers to a file of symbols",
        Command::Gen =>
            b"makes a machine that has a parallel decomposition, and prints it as KISS2",
        Command::Trial =>
            b"makes that machine, and prints a summary and its parallel decomposition",
        Command::Least => b"writes the network in a code whose latches read the fewest bits",
        Command::Cover => b"writes the network of a closed cover of the states",
        Command::Definite => b"shows how the states of a definite machine come together",
        Command::Shift => b"writes a definite machine as a shift register",
        Command::Ispairs => b"lists the Mm pairs of inputs and states",
        Command::Sopairs => b"lists the Mm pairs of states and outputs",
        Command::Compare => b"counts the network of each kind, or says why there is none",
        Command::Part => b"prints one of the smaller machines of a split as KISS2",
    }
}

/// The words of an example of a command.
pub fn example(command: Command) -> &'static [u8]
    ensures { result.now ≡ example_of command }
{
    match command {
        Command::Check => b"check modulo4.kiss",
        Command::Reduce => b"reduce alike.kiss",
        Command::Closed => b"closed modulo4.kiss --limit 100",
        Command::Output => b"output modulo4.kiss --limit 100",
        Command::Pairs => b"pairs modulo4.kiss --limit 100",
        Command::Low => b"low modulo4.kiss 0,0,1,1",
        Command::High => b"high modulo4.kiss 0,0,1,1",
        Command::Code => b"code modulo4.kiss",
        Command::Assign => b"assign modulo4.kiss 0,1,0,1/0,0,1,1",
        Command::Parallel => b"parallel product.kiss",
        Command::Serial => b"serial modulo4.kiss",
        Command::Cascade => b"cascade counter8.kiss",
        Command::Feedback => b"feedback crossed.kiss",
        Command::Walk => b"walk modulo4.kiss -",
        Command::Sim => b"sim modulo4.blif - --start 00",
        Command::Gen => b"gen 42 4 4 1",
        Command::Trial => b"trial 42 4 4 1",
        Command::Least => b"least modulo4.kiss",
        Command::Cover => b"cover modulo4.kiss 0,1/0,3/1,2/2,3",
        Command::Definite => b"definite three_ones.kiss",
        Command::Shift => b"shift shift3.kiss",
        Command::Ispairs => b"ispairs modulo4.kiss --limit 100",
        Command::Sopairs => b"sopairs modulo4.kiss --limit 100",
        Command::Compare => b"compare modulo4.kiss",
        Command::Part => b"part modulo4.kiss serial 1",
    }
}

/// The words that make the file of an example before it. The files of the other examples are in the folder examples.
pub fn making(command: Command) -> Option<&'static [u8]>
    ensures { option_map (λ words. words.now) result ≡ making_of command }
{
    match command {
        Command::Sim => Some(b"serial modulo4.kiss > modulo4.blif"),
        _ => None,
    }
}

/// The name of an operand.
pub fn operand_name(kind: OperandKind) -> &'static [u8]
    ensures { result.now ≡ operand_word kind }
{
    match kind {
        OperandKind::File => b"FILE",
        OperandKind::Net => b"NET",
        OperandKind::Part => b"PART",
        OperandKind::Parts => b"PARTS",
        OperandKind::Symbols => b"SYMBOLS",
        OperandKind::Cover => b"COVER",
        OperandKind::Split => b"SPLIT",
        OperandKind::J => b"J",
        OperandKind::Seed => b"SEED",
        OperandKind::A => b"A",
        OperandKind::B => b"B",
        OperandKind::K => b"K",
    }
}

/// What an operand is.
pub fn operand_text(kind: OperandKind) -> &'static [u8]
    ensures { result.now ≡ operand_note kind }
{
    match kind {
        OperandKind::File => b"  FILE         a machine in KISS2; - is standard input",
        OperandKind::Net => b"  NET          a network in BLIF; - is standard input",
        OperandKind::Part =>
            b"  PART         the block of each state in order, counted from 0, as 0,1,0,2",
        OperandKind::Parts => b"  PARTS        partitions joined by slashes, as 0,1,0,1/0,0,1,1",
        OperandKind::Symbols =>
            b"  SYMBOLS      a line for each symbol, a 0 or 1 for each input; - is standard input",
        OperandKind::Cover =>
            b"  COVER        blocks of states, counted from 0, joined by slashes, as 0,1/0,2/1,2",
        OperandKind::Split =>
            b"  SPLIT        code, parallel, serial, cascade, feedback, least, or as 0,1,0,1/0,0,1,1",
        OperandKind::J =>
            b"  J            the number of a part, of one to three digits, from 0; or outputs",
        OperandKind::Seed =>
            b"  SEED         the number that the machine is made from, of one to nine digits",
        OperandKind::A => b"  A            how many states its first factor has, from 2 to 128",
        OperandKind::B =>
            b"  B            how many its second factor has, from 2 to 128; A times B is at most 256",
        OperandKind::K => b"  K            how many inputs it has, from 1 to 8",
    }
}

/// An option with the word that it takes.
pub fn option_name(option: CommandOption) -> &'static [u8]
    ensures { result.now ≡ option_words option }
{
    match option {
        CommandOption::Limit => b"[--limit N]",
        CommandOption::Reduce => b"[--reduce]",
        CommandOption::Start => b"[--start BITS]",
        CommandOption::Fill => b"[--fill hold]",
        CommandOption::Names => b"[--names]",
        CommandOption::Clock => b"[--clock NAME]",
        CommandOption::Model => b"[--model NAME]",
    }
}

/// What an option is for.
pub fn option_text(option: CommandOption) -> &'static [u8]
    ensures { result.now ≡ option_note option }
{
    match option {
        CommandOption::Limit =>
            b"  --limit N    lists up to N, from 1 to 10,000; without it up to 1,000",
        CommandOption::Reduce =>
            b"  --reduce     works on the classes of states that no word tells apart",
        CommandOption::Start =>
            b"  --start BITS the first values of the latches in order, a 0 or 1 for each",
        CommandOption::Fill =>
            b"  --fill hold  fills what is open: the machine stays in its state and puts out 0",
        CommandOption::Names =>
            b"  --names      prints each block by the names of its states, in braces",
        CommandOption::Clock =>
            b"  --clock NAME the clock of the latches, which is no signal of the network",
        CommandOption::Model => b"  --model NAME the name of the network's model; without it hsdec",
    }
}
