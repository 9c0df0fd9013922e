//! A table of calls.

use crate::calls::{made_hash, outcome};
use std::test::Fail;

/// A call, and what it comes to: its value or exception, and the receiver then.
const ROWS: &str = "7 + 8 => 15 | 7
9223372036854775807 + 1 => integer out of 64 bits (RangeError) | 9223372036854775807
7 + nil => wrong type NilClass (TypeError) | 7
7 - 8 => -1 | 7
-9223372036854775808 - 1 => integer out of 64 bits (RangeError) | -9223372036854775808
7 - 'a => wrong type String (TypeError) | 7
-3 * 4 => -12 | -3
4611686018427387904 * 2 => integer out of 64 bits (RangeError) | 4611686018427387904
-7 / 2 => -4 | -7
7 / 0 => divided by 0 (ZeroDivisionError) | 7
-9223372036854775808 / -1 => integer out of 64 bits (RangeError) | -9223372036854775808
-7 % 3 => 2 | -7
7 % -3 => -2 | 7
7 % 0 => divided by 0 (ZeroDivisionError) | 7
1 < 2 => true | 1
1 < nil => comparison of Integer with NilClass failed (ArgumentError) | 1
2 <= 2 => true | 2
2 > 2 => false | 2
2 >= 3 => false | 2
1 <=> 2 => -1 | 1
1 <=> 'a => nil | 1
1 == 1 => true | 1
1 == '1 => false | 1
1 != 1 => false | 1
5 -@ => -5 | 5
-9223372036854775808 -@ => integer out of 64 bits (RangeError) | -9223372036854775808
-5 abs => 5 | -5
-9223372036854775808 abs => integer out of 64 bits (RangeError) | -9223372036854775808
-2 even? => true | -2
-1 odd? => true | -1
0 zero? => true | 0
7 zero? 1 => wrong number of arguments (given 1, expected 0) (ArgumentError) | 7
7 + 1 2 => wrong number of arguments (given 2, expected 1) (ArgumentError) | 7
-12 to_s => \"-12\" | -12
7 size => undefined method 'size' for an instance of Integer | 7
7 class => Integer | 7
7 is_a? Integer => true | 7
7 is_a? String => false | 7
nil kind_of? Object => true | nil
'a is_a? 7 => wrong type Integer (TypeError) | \"a\"
7 is_a? => wrong number of arguments (given 0, expected 1) (ArgumentError) | 7
nil class => NilClass | nil
nil nil? => true | nil
7 nil? => false | 7
nil to_s => \"\" | nil
nil inspect => \"nil\" | nil
false ! => true | false
7 ! => false | 7
7 frozen? => true | 7
'a frozen? => false | \"a\"
*'a frozen? => true | \"a\"
'a freeze => \"a\" | \"a\"
'a equal? 'a => false | \"a\"
:b equal? :b => true | :b
:b to_s => \"b\" | :b
:b inspect => \":b\" | :b
:b <=> :c => -1 | :b
:b <=> 1 => nil | :b
:b == :b => true | :b
:b < :c => undefined method '<' for an instance of Symbol | :b
'ab + 'c => \"abc\" | \"ab\"
'ab + 1 => wrong type Integer (TypeError) | \"ab\"
'ab * 3 => \"ababab\" | \"ab\"
'ab * 0 => \"\" | \"ab\"
' * 9223372036854775807 => \"\" | \"\"
'ab * -1 => argument must be non-negative (ArgumentError) | \"ab\"
'ab * 'c => wrong type String (TypeError) | \"ab\"
'ab << 'c => \"abc\" | \"abc\"
*'ab << 1 => can't modify frozen String (FrozenError) | \"ab\"
'ab << 1 => wrong type Integer (TypeError) | \"ab\"
'ab <=> 'b => -1 | \"ab\"
'ab <=> 1 => nil | \"ab\"
'b > 'ab => true | \"b\"
'b <= 'b => true | \"b\"
'b < 1 => comparison of String with Integer failed (ArgumentError) | \"b\"
'ab == 'ab => true | \"ab\"
'ab != 'ab => false | \"ab\"
'ab - 'a => undefined method '-' for an instance of String | \"ab\"
'aé size => 2 | \"aé\"
'aé length => 2 | \"aé\"
'añbc include? 'ñb => true | \"añbc\"
'abc include? 'ac => false | \"abc\"
' include? ' => true | \"\"
'abc include? nil => wrong type NilClass (TypeError) | \"abc\"
'añbc [] 1 => \"ñ\" | \"añbc\"
'añbc [] -1 => \"c\" | \"añbc\"
'añbc [] -4 => \"a\" | \"añbc\"
'añbc [] 4 => nil | \"añbc\"
'añbc [] -5 => nil | \"añbc\"
'añbc [] nil => wrong type NilClass (TypeError) | \"añbc\"
Integer name => \"Integer\" | Integer
7 name => undefined method 'name' for an instance of Integer | 7
error message => \"TypeError\" | #<TypeError: TypeError>
error cause => nil | #<TypeError: TypeError>
remote ractor => #<Ractor:#3> | #<Ractor::RemoteError: Ractor::RemoteError>
remote ractor 1 => wrong number of arguments (given 1, expected 0) (ArgumentError) | #<Ractor::RemoteError: Ractor::RemoteError>
error ractor => undefined method 'ractor' for an instance of TypeError | #<TypeError: TypeError>
7 ractor => undefined method 'ractor' for an instance of Integer | 7
error to_s => \"TypeError\" | #<TypeError: TypeError>
error == 1 => false | #<TypeError: TypeError>
' empty? => true | \"\"
'a empty? => false | \"a\"
'a to_s => \"a\" | \"a\"
[1,2,3 size => 3 | [1, 2, 3]
[ empty? => true | []
[1,2,3 first => 1 | [1, 2, 3]
[ first => nil | []
[1,2,3 last => 3 | [1, 2, 3]
[ last => nil | []
[1,2,3 [] 1 => 2 | [1, 2, 3]
[1,2,3 [] -3 => 1 | [1, 2, 3]
[1,2,3 [] 3 => nil | [1, 2, 3]
[1,2,3 [] -4 => nil | [1, 2, 3]
[1,2,3 [] nil => wrong type NilClass (TypeError) | [1, 2, 3]
[1 << 2 => [1, 2] | [1, 2]
[1 push 2 => [1, 2] | [1, 2]
*[1 << 2 => can't modify frozen Array (FrozenError) | [1]
[1,2 pop => 2 | [1]
[ pop => nil | []
*[ pop => can't modify frozen Array (FrozenError) | []
[1,2 shift => 1 | [2]
[ shift => nil | []
*[1 shift => can't modify frozen Array (FrozenError) | [1]
[1 to_s => \"[1]\" | [1]
[1,2 + [3 => [1, 2, 3] | [1, 2]
[1 + 2 => wrong type Integer (TypeError) | [1]
[ + [ => [] | []
[1 - [1 => undefined method '-' for an instance of Array | [1]
[1,2 dup => [1, 2] | [1, 2]
*[1,2 dup => [1, 2] | [1, 2]
{1:2,3:4 dup => {1 => 2, 3 => 4} | {1 => 2, 3 => 4}
*{1:2 dup => {1 => 2} | {1 => 2}
{ dup => {} | {}
{1:2 dup 1 => wrong number of arguments (given 1, expected 0) (ArgumentError) | {1 => 2}
'ab dup => \"ab\" | \"ab\"
7 dup => 7 | 7
nil dup => nil | nil
:b dup => :b | :b
[1,2 []= 0 5 => 5 | [5, 2]
[1,2 []= -1 5 => 5 | [1, 5]
[1,2 []= 2 5 => 5 | [1, 2, 5]
[1 []= 3 5 => 5 | [1, nil, nil, 5]
[ []= 1 5 => 5 | [nil, 5]
[1 []= -2 5 => index out of range (IndexError) | [1]
*[1 []= 0 5 => can't modify frozen Array (FrozenError) | [1]
[1 []= nil 5 => wrong type NilClass (TypeError) | [1]
[1 []= 0 => wrong number of arguments (given 1, expected 2) (ArgumentError) | [1]
7 []= 0 1 => undefined method '[]=' for an instance of Integer | 7
[1 keys => undefined method 'keys' for an instance of Array | [1]
{ []= 7 1 => 1 | {7 => 1}
{ []= 'a 1 => 1 | {\"a\" => 1}
{ []= *'a 1 => 1 | {\"a\" => 1}
{ []= :b 1 => 1 | {b: 1}
{ []= nil 1 => 1 | {nil => 1}
{ []= true 1 => 1 | {true => 1}
{ []= Integer 1 => 1 | {Integer => 1}
{1:2,3:4 []= 1 5 => 5 | {1 => 5, 3 => 4}
{1:2,3:4 []= 5 6 => 6 | {1 => 2, 3 => 4, 5 => 6}
{ []= [1 2 => wrong type Array (TypeError) | {}
{ []= error 2 => wrong type TypeError (TypeError) | {}
*{ []= 1 2 => can't modify frozen Hash (FrozenError) | {}
{ []= 1 => wrong number of arguments (given 1, expected 2) (ArgumentError) | {}
{1:2,3:4 [] 3 => 4 | {1 => 2, 3 => 4}
{1:2,3:4 [] 4 => nil | {1 => 2, 3 => 4}
{1:2 [] '1 => nil | {1 => 2}
{1:2 [] [1 => wrong type Array (TypeError) | {1 => 2}
*{1:2 [] 1 => 2 | {1 => 2}
{1:2,3:4 key? 3 => true | {1 => 2, 3 => 4}
{1:2,3:4 key? 2 => false | {1 => 2, 3 => 4}
{1:2,3:4 keys => [1, 3] | {1 => 2, 3 => 4}
{1:2,3:4 values => [2, 4] | {1 => 2, 3 => 4}
{ keys => [] | {}
{1:2,3:4 size => 2 | {1 => 2, 3 => 4}
{ empty? => true | {}
{1:2 first => undefined method 'first' for an instance of Hash | {1 => 2}
[1,2,3 sum => 6 | [1, 2, 3]
[ sum => 0 | []
[-5,2 sum => -3 | [-5, 2]
[9223372036854775807,1 sum => integer out of 64 bits (RangeError) | [9223372036854775807, 1]
[-9223372036854775808,-1 sum => integer out of 64 bits (RangeError) | [-9223372036854775808, -1]
[9223372036854775807,1,-1 sum => 9223372036854775807 | [9223372036854775807, 1, -1]
[1,'a,2 sum => wrong type String (TypeError) | [1, \"a\", 2]
*[1,2 sum => 3 | [1, 2]
[1 sum 2 => wrong number of arguments (given 1, expected 0) (ArgumentError) | [1]
{1:2 sum => undefined method 'sum' for an instance of Hash | {1 => 2}
{1:2,3:4 delete 1 => 2 | {3 => 4}
{1:2,3:4 delete 3 => 4 | {1 => 2}
{1:2,3:4,5:6 delete 3 => 4 | {1 => 2, 5 => 6}
{1:2 delete 3 => nil | {1 => 2}
{1:2 delete '1 => nil | {1 => 2}
{1:2 delete [1 => wrong type Array (TypeError) | {1 => 2}
*{1:2 delete 1 => can't modify frozen Hash (FrozenError) | {1 => 2}
{1:2 delete => wrong number of arguments (given 0, expected 1) (ArgumentError) | {1 => 2}
[1 delete 1 => undefined method 'delete' for an instance of Array | [1]
Object new => #<Object> | Object
Object new 1 => wrong number of arguments (given 1, expected 0) (ArgumentError) | Object
TypeError new => #<TypeError: TypeError> | TypeError
TypeError new 'a => #<TypeError: a> | TypeError
TypeError new 'a 1 => wrong number of arguments (given 2, expected 0..1) (ArgumentError) | TypeError
Integer new => undefined method 'new' for class Integer | Integer
String new 'a => undefined method 'new' for class String | String
7 new => undefined method 'new' for an instance of Integer | 7
error new => undefined method 'new' for an instance of TypeError | #<TypeError: TypeError>
[3,1,2 sort => [1, 2, 3] | [3, 1, 2]
[ sort => [] | []
[-1,-9223372036854775808,9223372036854775807 sort => [-9223372036854775808, -1, 9223372036854775807] | [-1, -9223372036854775808, 9223372036854775807]
[22,21,20,19,18,17,16,15,14,13,12,11,10,9,8,7,6,5,4,3,2,1 sort => [1, 2, 3, 4, 5, 6, 7, 8, 9, 10, 11, 12, 13, 14, 15, 16, 17, 18, 19, 20, 21, 22] | [22, 21, 20, 19, 18, 17, 16, 15, 14, 13, 12, 11, 10, 9, 8, 7, 6, 5, 4, 3, 2, 1]
['b,'a,'ab sort => [\"a\", \"ab\", \"b\"] | [\"b\", \"a\", \"ab\"]
[1,'a sort => comparison of Integer with String failed (ArgumentError) | [1, \"a\"]
['a,'b,1 sort => comparison of String with Integer failed (ArgumentError) | [\"a\", \"b\", 1]
*[2,1 sort => [1, 2] | [2, 1]
[1 sort 1 => wrong number of arguments (given 1, expected 0) (ArgumentError) | [1]
{1:2 sort => undefined method 'sort' for an instance of Hash | {1 => 2}
[1,2,3 join => \"123\" | [1, 2, 3]
[1,'a,-2 join '- => \"1-a--2\" | [1, \"a\", -2]
[1,2 join ', => \"1,2\" | [1, 2]
[1 join '- => \"1\" | [1]
[1,2 join nil => \"12\" | [1, 2]
[ join => \"\" | []
[ join 5 => \"\" | []
[1 join 5 => wrong type Integer (TypeError) | [1]
[1 join [1 => wrong type Array (TypeError) | [1]
*['a,'b join *'+ => \"a+b\" | [\"a\", \"b\"]
[1 join '- 1 => wrong number of arguments (given 2, expected 0..1) (ArgumentError) | [1]
'a join '- => undefined method 'join' for an instance of String | \"a\"
{1:2 join => undefined method 'join' for an instance of Hash | {1 => 2}
[1,2 == [1,2 => true | [1, 2]
[1,2 == [2,1 => false | [1, 2]
[1,2 == [1 => false | [1, 2]
[ == [ => true | []
[1 == 1 => false | [1]
[1 == nil => false | [1]
[1 == {1:2 => false | [1]
*[1 == [1 => true | [1]
['a,'b == ['a,'b => true | [\"a\", \"b\"]
['a == ['b => false | [\"a\"]
[1 == ['a => false | [1]
[1 != [1 => false | [1]
[1 != [2 => true | [1]
[1 != nil => true | [1]
[1 == shell => moved object (Ractor::MovedError) | [1]
[1 != shell => moved object (Ractor::MovedError) | [1]
shell == [1 => moved object (Ractor::MovedError) | shell
[ == => wrong number of arguments (given 0, expected 1) (ArgumentError) | []
[1 <=> [1 => undefined method '<=>' for an instance of Array | [1]
[1 < [1 => undefined method '<' for an instance of Array | [1]
1 == [1 => false | 1
1 != [1 => true | 1
'a == ['a => false | \"a\"
:b == [1 => false | :b
nil == [ => false | nil
{1:2,3:4 == {3:4,1:2 => true | {1 => 2, 3 => 4}
{1:2,3:4 == {1:2 => false | {1 => 2, 3 => 4}
{1:2 == {1:2,3:4 => false | {1 => 2}
{1:2 == {1:3 => false | {1 => 2}
{1:2 == {2:2 => false | {1 => 2}
{ == { => true | {}
{ == [ => false | {}
{1:2 == 5 => false | {1 => 2}
{1:2 != {1:2 => false | {1 => 2}
{1:2 != {1:3 => true | {1 => 2}
{1:2 == shell => moved object (Ractor::MovedError) | {1 => 2}
*{1:2 == {1:2 => true | {1 => 2}
{1:2 + {1:2 => undefined method '+' for an instance of Hash | {1 => 2}
[1,2,3 include? 2 => true | [1, 2, 3]
[1,2,3 include? 4 => false | [1, 2, 3]
[ include? nil => false | []
['a,'b include? 'b => true | [\"a\", \"b\"]
['a,'b include? 1 => false | [\"a\", \"b\"]
[1,2 include? [1 => false | [1, 2]
[1 include? shell => false | [1]
*[1 include? 1 => true | [1]
[1 include? => wrong number of arguments (given 0, expected 1) (ArgumentError) | [1]
{1:2 include? 1 => undefined method 'include?' for an instance of Hash | {1 => 2}
shell + 1 => moved object (Ractor::MovedError) | shell
shell nil? => moved object (Ractor::MovedError) | shell
nil == shell => false | nil";

#[test]
fn calls_come_out_as_wanted(rt: HostRuntime) -> Result<(), Fail> {
    for row in ROWS.lines() {
        let Some((line, wanted)) = row.split_once(" => ") else {
            return Err(Fail::from("no row"));
        };
        let found = outcome(rt.alloc(), line)?;
        if found.as_slice() != wanted.as_bytes() {
            println!(rt; "{row}")?;
            for byte in &found {
                print!(rt; "{byte} ")?;
            }
            return Err(Fail::from("another outcome"));
        }
    }
    Ok(())
}

/// An empty hash gets its pairs, and finds them again.
#[test]
fn a_made_hash_takes_pairs(rt: HostRuntime) -> Result<(), Fail> {
    let found = made_hash(rt.alloc())?;
    if found.as_slice() != b"{} 0 | {7 => 8, 9 => 10} 2 | 10 nil".as_slice() {
        return Err(Fail::from("another hash"));
    }
    Ok(())
}
