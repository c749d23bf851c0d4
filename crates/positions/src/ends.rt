// The end of a text, byte by byte.
use super::End;

const NEWLINE: u8 = b'\n';

impl End {
    ghost use Rattle.std.specs.Prelude.{◌≡◌, [], ◌∷◌, ◌+◌, ◌^◌, ◌<◌, length};
    ghost use Rattle.positions.specs.Pieces.{EndOf, Passed};

    // The end of no text.
    pub fn new() -> End
        ensures { EndOf result [] }
    {
        End {
            size: 0,
            line: 1,
            column: 1,
        }
    }

    // The end when one byte more has come.
    fn after(self, byte: u8) -> End
        requires { self.size < 2 ^ 40 }
        ensures { Passed self (byte ∷ []) result }
    {
        if byte == NEWLINE {
            return End {
                size: self.size + 1,
                line: self.line + 1,
                column: 1,
            };
        }
        End {
            size: self.size + 1,
            line: self.line,
            column: self.column + 1,
        }
    }

    // The end when a piece more has come.
    // A loop: `after` asks for a short text, and the closure of a fold would have to take any end.
    pub fn walk(self, piece: &[u8]) -> End
        requires { self.size + length piece.now < 2 ^ 40 }
        ensures { Passed self piece.now result }
    {
        let mut at = self;
        for byte in piece {
            at = at.after(*byte);
        }
        at
    }
}
