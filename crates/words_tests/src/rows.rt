//! Lists of words with their requests, one a line: the words, ` => `, and the request's name and values with `|` between them, or
//! `none`. Between two `~` stand a text, `*` and how often the text is repeated; `·` is a blank in a word.

/// How many lists there are.
pub const COUNT: usize = 252;

/// The lists, with their requests by hand from the rules on words.
pub const ROWS: &str = "\
h => none
h exec => none
h Exec s a b t u --seed ~0*64~ => none
h exe s a b t u --seed ~0*64~ => none
h execs s a b t u --seed ~0*64~ => none
exec s a b t u --seed ~0*64~ => none
h -- exec s a b t u --seed ~0*64~ => none
h --seed ~0*64~ exec s a b t u => none
h help => none
h --help => none
h --version => none
~x*0~ check x => check|x
-- check x => check|x
--seed check x => check|x
check check check => check|check
h exec s a b t u --seed ~0*64~ => exec|s|a|b|t|u|16|-|ab|~0*64~
h exec --seed ~0*64~ s a b t u => exec|s|a|b|t|u|16|-|ab|~0*64~
h exec s --seed ~0*64~ a b t u => exec|s|a|b|t|u|16|-|ab|~0*64~
h exec s a --seed ~0*64~ b t u => exec|s|a|b|t|u|16|-|ab|~0*64~
h exec s a b --seed ~0*64~ t u => exec|s|a|b|t|u|16|-|ab|~0*64~
h exec s a b t --seed ~0*64~ u => exec|s|a|b|t|u|16|-|ab|~0*64~
h exec --seed=~1*64~ s a b t u => exec|s|a|b|t|u|16|-|ab|~1*64~
h exec s --seed=~2*64~ a b t u => exec|s|a|b|t|u|16|-|ab|~2*64~
h exec s a --seed=~3*64~ b t u => exec|s|a|b|t|u|16|-|ab|~3*64~
h exec s a b --seed=~4*64~ t u => exec|s|a|b|t|u|16|-|ab|~4*64~
h exec s a b t --seed=~9*64~ u => exec|s|a|b|t|u|16|-|ab|~9*64~
h exec s a b t u --seed=~f*64~ => exec|s|a|b|t|u|16|-|ab|~f*64~
h exec --turns ba s a b t u --seed ~0*64~ => exec|s|a|b|t|u|16|-|ba|~0*64~
h exec s --turns=b a b t u --seed ~0*64~ => exec|s|a|b|t|u|16|-|b|~0*64~
h exec s a --turns a b t u --seed ~0*64~ => exec|s|a|b|t|u|16|-|a|~0*64~
h exec s a b --turns aab t u --seed ~0*64~ => exec|s|a|b|t|u|16|-|aab|~0*64~
h exec s a b t --turns bba u --seed ~0*64~ => exec|s|a|b|t|u|16|-|bba|~0*64~
h exec s a b t u --turns=abba --seed ~0*64~ => exec|s|a|b|t|u|16|-|abba|~0*64~
h exec --layers 1 s a b t u --seed ~0*64~ => exec|s|a|b|t|u|1|-|ab|~0*64~
h exec s --layers=2 a b t u --seed ~0*64~ => exec|s|a|b|t|u|2|-|ab|~0*64~
h exec s a --layers 63 b t u --seed ~0*64~ => exec|s|a|b|t|u|63|-|ab|~0*64~
h exec s a b --layers=64 t u --seed ~0*64~ => exec|s|a|b|t|u|64|-|ab|~0*64~
h exec s a b t --layers 10 u --seed ~0*64~ => exec|s|a|b|t|u|10|-|ab|~0*64~
h exec s a b t u --layers 16 --seed ~0*64~ => exec|s|a|b|t|u|16|-|ab|~0*64~
h exec --bound 0 s a b t u --seed ~0*64~ => exec|s|a|b|t|u|16|0|ab|~0*64~
h exec s --bound=1 a b t u --seed ~0*64~ => exec|s|a|b|t|u|16|1|ab|~0*64~
h exec s a --bound 99 b t u --seed ~0*64~ => exec|s|a|b|t|u|16|99|ab|~0*64~
h exec s a b --bound=1048575 t u --seed ~0*64~ => exec|s|a|b|t|u|16|1048575|ab|~0*64~
h exec s a b t --bound 1048576 u --seed ~0*64~ => exec|s|a|b|t|u|16|1048576|ab|~0*64~
h exec s a b t u --bound 7 --seed ~0*64~ => exec|s|a|b|t|u|16|7|ab|~0*64~
h exec --bound=3 s --layers=4 a --turns=ba b --seed=~aB*32~ t u => exec|s|a|b|t|u|4|3|ba|~ab*32~
h exec s a b t u --turns=ab --bound 5 --seed ~Fe*32~ --layers 6 => exec|s|a|b|t|u|6|5|ab|~fe*32~
h exec s a b t u --layers=~x*0~ --seed ~0*64~ => none
h exec s a b t u --layers ~x*0~ --seed ~0*64~ => none
h exec s a b t u --layers 0 --seed ~0*64~ => none
h exec s a b t u --layers 65 --seed ~0*64~ => none
h exec s a b t u --layers 016 --seed ~0*64~ => none
h exec s a b t u --layers 00 --seed ~0*64~ => none
h exec s a b t u --layers +1 --seed ~0*64~ => none
h exec s a b t u --layers ·1 --seed ~0*64~ => none
h exec s a b t u --layers 1· --seed ~0*64~ => none
h exec s a b t u --layers 1.0 --seed ~0*64~ => none
h exec s a b t u --layers 1_0 --seed ~0*64~ => none
h exec s a b t u --layers 0x1 --seed ~0*64~ => none
h exec s a b t u --layers ١ --seed ~0*64~ => none
h exec s a b t u --layers -1 --seed ~0*64~ => none
h exec s a b t u --layers=-1 --seed ~0*64~ => none
h exec s a b t u --layers - --seed ~0*64~ => none
h exec s a b t u --bound 00 --seed ~0*64~ => none
h exec s a b t u --bound 1048577 --seed ~0*64~ => none
h exec s a b t u --bound 01 --seed ~0*64~ => none
h exec s a b t u --bound +1 --seed ~0*64~ => none
h exec s a b t u --bound=·1 --seed ~0*64~ => none
h exec s a b t u --bound -1 --seed ~0*64~ => none
h exec s a b t u --bound=18446744073709551616 --seed ~0*64~ => none
h exec s a b t u --bound=18446744073709551617 --seed ~0*64~ => none
h exec s a b t u --bound ~9*500~ --seed ~0*64~ => none
h exec s a b t u --bound --seed ~0*64~ => none
h exec s a b t u --seed ~0*64~ --bound => none
h exec s a b t u --seed ~0*64~ --bound -- => none
h exec s a b t u --seed ~0*64~ --bound -- 1 => none
h exec s a b t u --seed ~0*64~ --bound= 1 => none
h exec s a b t u --seed ~0*64~ --bound =1 => none
h exec s a b t u --seed ~0*64~ --bound==1 => none
h exec s a b t u --seed ~0*63~ => none
h exec s a b t u --seed ~0*65~ => none
h exec s a b t u --seed ~A*63~ => none
h exec s a b t u --seed ~A*65~ => none
h exec s a b t u --seed=~a*63~ => none
h exec s a b t u --seed=~a*65~ => none
h exec s a b t u --seed ~A*64~ => exec|s|a|b|t|u|16|-|ab|~a*64~
h exec s a b t u --seed ~a*64~ => exec|s|a|b|t|u|16|-|ab|~a*64~
h exec s a b t u --seed ~Aa*32~ => exec|s|a|b|t|u|16|-|ab|~aa*32~
h exec s a b t u --seed ~0123456789abcdefFEDCBA9876543210*2~ => exec|s|a|b|t|u|16|-|ab|~0123456789abcdeffedcba9876543210*2~
h exec s a b t u --seed ~0*63~g => none
h exec s a b t u --seed ~0*63~G => none
h exec s a b t u --seed ~0*63~· => none
h exec s a b t u --seed 0x~0*62~ => none
h exec s a b t u --seed ~é*32~ => none
h exec s a b t u --seed => none
h exec s a b t u --seed= => none
h exec s a b t u --seed - => none
h exec s a b t u => none
h exec s a b t u ~0*64~ => none
h exec s a b t --seed ~0*64~ => none
h exec s a b t u v --seed ~0*64~ => none
h exec s a b t u --seed ~0*64~ - => none
h exec s a b t u --seed ~0*64~ ~x*0~ => none
h exec s a b t u --seed ~0*64~ --seed ~0*64~ => none
h exec s a b t u --seed ~0*64~ --seed=~0*64~ => none
h exec --layers 2 s a b t u --seed ~0*64~ --layers 3 => none
h exec --bound=1 --bound=1 s a b t u --seed ~0*64~ => none
h exec --turns a --turns a s a b t u --seed ~0*64~ => none
h exec s a b t u --seed ~0*64~ --turns ~ab*2048~ => exec|s|a|b|t|u|16|-|~ab*2048~|~0*64~
h exec s a b t u --seed ~0*64~ --turns=~b*4096~ => exec|s|a|b|t|u|16|-|~b*4096~|~0*64~
h exec s a b t u --seed ~0*64~ --turns ~a*4097~ => none
h exec s a b t u --seed ~0*64~ --turns=~ab*2048~b => none
h exec s a b t u --seed ~0*64~ --turns ~x*0~ => none
h exec s a b t u --seed ~0*64~ --turns= => none
h exec s a b t u --seed ~0*64~ --turns abc => none
h exec s a b t u --seed ~0*64~ --turns A => none
h exec s a b t u --seed ~0*64~ --turns a·b => none
h exec s a b t u --seed ~0*64~ --turns - => none
h exec s a b t u --seed ~0*64~ --turns -a => none
h exec s a b t u --seed ~0*64~ --turns=-a => none
h exec s a b t u --seeds ~0*64~ => none
h exec s a b t u --see ~0*64~ => none
h exec s a b t u --SEED ~0*64~ => none
h exec s a b t u -seed ~0*64~ => none
h exec s a b t u -s ~0*64~ => none
h exec s a b t u ---seed ~0*64~ => none
h exec s a b t u --·seed ~0*64~ => none
h exec s a b t u --seed ~0*64~ --source s => none
h exec a b t u --seed ~0*64~ --source=s => none
h exec s a b t u --seed ~0*64~ --help => none
h exec s a b t u --seed ~0*64~ -h => none
h exec s a b t u --seed ~0*64~ --version => none
h exec s a b t u --seed ~0*64~ -V => none
h exec s a b t u --seed ~0*64~ help => none
h exec s a b t u --seed ~0*64~ --= => none
h exec s a b t u --seed ~0*64~ --=1 => none
h exec s a b t u --seed ~0*64~ -= => none
h exec s a b t u --seed ~0*64~ -1 => none
h exec s a b t u --seed ~0*64~ --- => none
h exec s a b t u --seed ~0*64~ -é => none
h exec s a b t u --seed ~0*64~ --é => none
h exec -- s a b t u => none
h exec s a b t u --seed ~0*64~ -- => exec|s|a|b|t|u|16|-|ab|~0*64~
h exec s --seed ~0*64~ -- a b t u => exec|s|a|b|t|u|16|-|ab|~0*64~
h exec --seed ~0*64~ -- s a b t u => exec|s|a|b|t|u|16|-|ab|~0*64~
h exec --seed ~0*64~ -- --a -b -- --t= - => exec|--a|-b|--|--t=|-|16|-|ab|~0*64~
h exec --seed ~0*64~ -- s a b t u --layers 1 => none
h exec --seed ~0*64~ -- s a b t u -- => none
h exec - - - - - --seed ~0*64~ => exec|-|-|-|-|-|16|-|ab|~0*64~
h exec a=b =c é ··· ~x*0~ --seed ~0*64~ => exec|a=b|=c|é|···||16|-|ab|~0*64~
h exec ·-x −x e f g --seed ~0*64~ => exec|·-x|−x|e|f|g|16|-|ab|~0*64~
h compile s t b => compile|s|t|b|16|-
h compile --bound=7 s t --layers 3 b => compile|s|t|b|3|7
h compile s t --bound 1048576 b --layers=64 => compile|s|t|b|64|1048576
h compile s t => none
h compile s t b c => none
h compile s t b --seed ~0*64~ => none
h compile s t b --turns a => none
h compile s t b --layers 65 => none
h compile s t b --bound 1048577 => none
h compile -- s t b => compile|s|t|b|16|-
h compile s -- --layers 3 => compile|s|--layers|3|16|-
h run b x y --seed ~0*64~ => run|b|x|y|~0*64~|ab
h run --turns=bab b --seed=~Ee*32~ x y => run|b|x|y|~ee*32~|bab
h run b x y => none
h run b x --seed ~0*64~ => none
h run b x y z --seed ~0*64~ => none
h run b x y --seed ~0*64~ --layers 1 => none
h run b x y --seed ~0*64~ --bound 1 => none
h run x a b --seed 00 => none
h check b => check|b
h check - => check|-
h check -- - => check|-
h check -- -- => check|--
h check -- --seed => check|--seed
h check -- -x => check|-x
h check ~x*0~ => check|
h check a=b => check|a=b
h check ·x => check|·x
h check => none
h check -- => none
h check -- -- -- => none
h check b c => none
h check -x => none
h check --x => none
h check b --bound 1 => none
h check b --seed ~0*64~ => none
h plain s a b => plain|s|a|b|-
h plain s a b --bound 5 => plain|s|a|b|5
h plain --bound=0 s a b => plain|s|a|b|0
h plain s --bound 1048576 a b => plain|s|a|b|1048576
h plain s a --bound=1048577 b => none
h plain s a => none
h plain s a b c => none
h plain s a b --layers 1 => none
h gen 1 s a b t u => gen|1|s|a|b|t|u|16|-|ab
h gen 256 s a b t u => gen|256|s|a|b|t|u|16|-|ab
h gen -- 12 s a b t u => gen|12|s|a|b|t|u|16|-|ab
h gen 0 s a b t u => none
h gen 257 s a b t u => none
h gen 01 s a b t u => none
h gen 00 s a b t u => none
h gen +1 s a b t u => none
h gen ·1 s a b t u => none
h gen -1 s a b t u => none
h gen -- -1 s a b t u => none
h gen 1.0 s a b t u => none
h gen ~x*0~ s a b t u => none
h gen x s a b t u => none
h gen 1 s a b t => none
h gen 1 s a b t u v => none
h gen 1 s a b t u --layers 3 => none
h gen s 1 a b t u => none
h migrate o n => migrate|o|n
h migrate o => none
h migrate o n m => none
h migrate o n --layers 1 => none
h import f t b => import|f|t|b
h import f t => none
h import f t b c => none
h import f t b --layers 1 => none
h export b 0 f => export|b|0|f
h export b 1048575 f => export|b|1048575|f
h export b 1048576 f => none
h export b 00 f => none
h export b f 0 => none
h export b - f => none
h export b 0 => none
h export b 0 f g => none
h begin a B I S O --seed ~0*64~ => begin|a|B|I|S|O|~0*64~
h begin b B I S O --seed=~Cd*32~ => begin|b|B|I|S|O|~cd*32~
h begin --seed ~0*64~ b B -- I S -O => begin|b|B|I|S|-O|~0*64~
h begin A B I S O --seed ~0*64~ => none
h begin ab B I S O --seed ~0*64~ => none
h begin ~x*0~ B I S O --seed ~0*64~ => none
h begin c B I S O --seed ~0*64~ => none
h begin a B I S O => none
h begin a B I S --seed ~0*64~ => none
h begin a B I S O --seed ~0*64~ --turns a => none
h turn s i o => turn|s|i|o
h turn s i => none
h turn s i o p => none
h turn s i o --seed ~0*64~ => none
h log b 7 f => log|b|7|f
h log b 1048575 f => log|b|1048575|f
h log b 1048576 f => none
h log b f 7 => none
h log b 7 => none
h confirm f => confirm|f
h confirm => none
h confirm f g => none
h confirm --f => none";
