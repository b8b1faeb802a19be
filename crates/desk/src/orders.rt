//! The lines of a script after the first, in one table.
use crate::kinds::Written;
use crate::script::Said;
use crate::spelling::Spelled;
use crate::troubles::Expected;
use crate::troubles::Expected::{Number, Numbers, Words as Line};
use crate::words::Words;
use runs::Step;

/// What a line asks for: a step of the site, or what the desk does by itself.
#[derive(Drop)]
pub enum Order<E> {
    Step { step: Step<E> },
    Show,
}

// The table, which it hands to a macro beside what else that is given. A row has a line's first word, the line's form,
// and what the line asks for, with the reader of each part. What is reported of a step begins with the word of its row.
macro_rules! table {
    ($macro:ident $given:tt) => {
        $macro! { $given
            steps {
                "change" Numbers(E::FORM) => Change { i: controller, x: change };
                "pass" Numbers("pass I B K") => Pass { i: controller, to: controller, place: place };
                "call" Number("call I") => Call { i: controller };
                "invite" Numbers("invite I B") => Invite { i: controller, to: controller };
                "form" Number("form I") => Form { i: controller };
                "deliver" Number("deliver J") => Deliver { message: number };
                "join" Numbers("join I P") => Join { i: controller, primary: controller };
                "settle" Numbers("settle I COUNT CONTROLLER PLACE") => Settle { i: controller, stamp: stamp };
                "lookup" Numbers("lookup I A B") => Lookup { i: controller, question: question };
                "crash" Number("crash I") => Crash { i: controller };
                "recover" Number("recover I") => Recover { i: controller };
                "lose" Number("lose J") => Lose { message: number };
            }
            others {
                "show" Line("show, with nothing after it") => Show {};
            }
        }
    };
}

// Reads the words after a first one, by the row of that.
macro_rules! read_row {
    (($first:ident, $words:ident)
        steps { $($word:literal $form:expr => $step:ident { $($part:ident: $reader:ident),* };)+ }
        others { $($name:literal $shape:expr => $order:ident { $($piece:ident: $taker:ident),* };)+ }
    ) => {
        match $first {
            $($word => {
                let step = Step::$step { $($part: $words.$reader()?),* };
                Some(Order::Step { step })
            })+
            $($name => Some(Order::$order { $($piece: $words.$taker()?),* }),)+
            _ => None,
        }
    };
}

// The form of the row of a first word.
macro_rules! form_of {
    (($first:ident)
        steps { $($word:literal $form:expr => $step:ident $parts:tt;)+ }
        others { $($name:literal $shape:expr => $order:ident $pieces:tt;)+ }
    ) => {
        match $first {
            $($word => $form,)+
            $($name => $shape,)+
            _ => Line(listed!($($word),+, $($name),+)),
        }
    };
}

// The word of a step's row.
macro_rules! word_of {
    (($given:expr)
        steps { $($word:literal $form:expr => $step:ident $parts:tt;)+ }
        others $others:tt
    ) => {
        match $given {
            $(Step::$step { .. } => $word,)+
        }
    };
}

// Words as one text, `a, b or c`. In brackets is what the text has so far.
macro_rules! listed {
    ([$($text:literal),+] $last:literal) => {
        concat!($($text),+, " or ", $last)
    };
    ([$($text:literal),+] $next:literal, $($more:literal),+) => {
        listed!([$($text),+, ", ", $next] $($more),+)
    };
    ($first:literal, $($more:literal),+) => {
        listed!([$first] $($more),+)
    };
}

impl<E: Written> Said for Order<E> {
    fn read(first: &str, words: &mut Words) -> Option<Order<E>> {
        table!(read_row(first, words))
    }

    fn form(first: &str) -> Expected {
        table!(form_of(first))
    }
}

impl<E: Copy> Spelled for Step<E> {
    fn word(&self) -> &'static str {
        table!(word_of(self))
    }
}
