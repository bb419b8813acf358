// Reads the tokens of a notation, and writes the words that they stand for.
ghost use Rattle.std.specs.Prelude.{◌≡◌, ℕ, List, [], ◌∷◌, ◌++◌, Some, MatchBool, ◌≢◌};
ghost use Rattle.words.specs.Words.{word, kind_number};
ghost use Rattle.notation.specs.Tokens.{clipped};
ghost use Rattle.notation.specs.Steps.{Answer, Begins, NoClose, EntriesRead, HeadRead, BranchRead, ListRead};
ghost use Rattle.notation.specs.declared.token.Token.TheVariants.{Line, Root, Number, Open, Close};
ghost use Rattle.notation.specs.declared.token.Token.{Token};

use crate::stop::Stop;
use crate::token::Token;
use std::alloc::Global;
use words::{Kind, MOST_VALUE};

fn clipped(n: u32) -> u32
    ensures { result ≡ clipped n }
{
    n.min(MOST_VALUE)
}

// The tokens that are left, and the words of those that were read.
#[derive(Drop)]
pub(crate) struct Reader<'a> {
    left: &'a [Token],
    words: Vec<u32>,
}

impl<'a> Reader<'a> {
    pub(crate) fn new(heap: Global, tokens: &'a [Token]) -> Reader<'a>
        ensures left { result.left.now ≡ tokens.now }
        ensures words { result.words.items ≡ [] }
    {
        Reader {
            left: tokens,
            words: Vec::new(heap),
        }
    }

    // The next token, which is passed over. That no word is written three methods say: a cursor of tokens within would
    // be one more type, and no plainer.
    fn next(&mut self) -> Result<Token, Stop>
        ensures next { Answer result (λ t. self.old.left.now ≡ t ∷ self.new.left.now) (self.old.left.now ≡ []) }
        ensures kept { self.new.words ≡ self.old.words }
    {
        let (first, rest) = self.left.split_first().ok_or(Stop::NoNotation)?;
        self.left = rest;
        Ok(*first)
    }

    // Passes over this token, where it stands there.
    fn expect(&mut self, token: Token) -> Result<(), Stop>
        ensures passed { Answer result (λ _. self.old.left.now ≡ token ∷ self.new.left.now) ((rest : List Token) → self.old.left.now ≢ token ∷ rest) }
        ensures kept { self.new.words ≡ self.old.words }
    {
        if self.next()? == token {
            Ok(())
        } else {
            Err(Stop::NoNotation)
        }
    }

    // Whether a list ends here: its `)` is then passed over.
    fn closes(&mut self) -> bool
        ensures close { MatchBool result (self.old.left.now ≡ Close ∷ self.new.left.now) (NoClose self.old.left.now × (self.new.left.now ≡ self.old.left.now)) }
        ensures kept { self.new.words ≡ self.old.words }
    {
        let Some((Token::Close, rest)) = self.left.split_first() else {
            return false;
        };
        self.left = rest;
        true
    }

    // A root's entries, up to `](`.
    fn entries(&mut self) -> Result<(), Stop>
        ensures { EntriesRead self.old self.new result }
    {
        loop {
            match self.next()? {
                Token::Number(n) => self.words.push(Kind::Entry.word(clipped(n)))?,
                Token::EntriesClose => return self.expect(Token::Open),
                _ => return Err(Stop::NoNotation),
            }
        }
    }

    // Behind `line`: its number.
    fn line(&mut self) -> Result<Option<Kind>, Stop>
        ensures { Answer result (λ b. Begins b (Line ∷ self.old.left.now) self.old.words.items self.new.words.items self.new.left.now) ((n : ℕ) (rest : List Token) → self.old.left.now ≢ Number n ∷ rest) }
    {
        let Token::Number(n) = self.next()? else {
            return Err(Stop::NoNotation);
        };
        self.words.push(Kind::Line.word(clipped(n)))?;
        Ok(None)
    }

    // Behind the name of what stands over a list: its word, and `(`.
    fn listed(&mut self, kind: Kind) -> Result<Option<Kind>, Stop>
        ensures { Answer result (λ b. (b ≡ Some kind) × (self.old.left.now ≡ Open ∷ self.new.left.now) × (self.new.words.items ≡ self.old.words.items ++ word (kind_number kind) 0 ∷ [])) ((rest : List Token) → self.old.left.now ≢ Open ∷ rest) }
    {
        self.expect(Token::Open)?;
        self.words.push(kind.word(0))?;
        Ok(Some(kind))
    }

    // Behind `root`: its word, its entries in brackets, and `(`.
    fn root(&mut self) -> Result<Option<Kind>, Stop>
        ensures { HeadRead (Root ∷ self.old.left.now) self.old self.new result }
    {
        self.expect(Token::EntriesOpen)?;
        self.words.push(Kind::Root.word(0))?;
        self.entries()?;
        Ok(Some(Kind::Root))
    }

    // A head: the kind of what stands over a list that follows, with its count still to come, or none for a line.
    fn head(&mut self) -> Result<Option<Kind>, Stop>
        ensures { HeadRead self.old.left.now self.old self.new result }
    {
        match self.next()? {
            Token::Line => self.line(),
            Token::Sum => self.listed(Kind::Sum),
            Token::Greater => self.listed(Kind::Greater),
            Token::Root => self.root(),
            _ => Err(Stop::NoNotation),
        }
    }

    // A branch of so many levels at most.
    #[cycle(branch_branches)]
    pub(crate) fn branch(&mut self, levels: usize) -> Result<(), Stop>
        ensures { BranchRead levels self.old self.new result }
    {
        if levels == 0 {
            return Err(Stop::NoNotation);
        }
        let at = self.words.len();
        let Some(kind) = self.head()? else {
            return Ok(());
        };
        let count = self.branches(levels - 1)?;
        self.words[at] = kind.word(count);
        Ok(())
    }

    // The branches up to `)`, and how many they are, clipped to the largest value.
    #[cycle(branch_branches)]
    fn branches(&mut self, levels: usize) -> Result<u32, Stop>
        ensures { ListRead levels self.old self.new result }
    {
        if self.closes() {
            return Ok(0);
        }
        let mut count = 0;
        loop {
            self.branch(levels)?;
            count = clipped(count + 1);
            match self.next()? {
                Token::Close => return Ok(count),
                Token::Comma => {}
                _ => return Err(Stop::NoNotation),
            }
        }
    }

    // The words, where no token is left.
    pub(crate) fn finish(self) -> Result<Vec<u32>, Stop>
        ensures { Answer result (λ v. (self.entry.left.now ≡ []) × (v.items ≡ self.entry.words.items)) (self.entry.left.now ≢ []) }
    {
        if self.left.is_empty() {
            Ok(self.words)
        } else {
            Err(Stop::NoNotation)
        }
    }
}
